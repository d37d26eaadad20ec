//! What is proposed: a certificate or a lasso.

use crate::budget::{Limits, SearchLimit, SearchResult, SearchStop};
use crate::formulas::{Formulas, propositions_of};
use crate::guide::EmptyProduct;
use crate::lasso::{InputLasso, OpenLasso, lasso_of};
use crate::numbers::count;
use crate::pieces::CircuitPieces;
use crate::product::CircuitProduct;
use crate::ranks::{ProductRanks, ranks_of};
use crate::selection::ConjunctSelection;
use crate::tableau::CubeTableau;
use pg_ltl::NormalNode;
use pg_satisfies_check::EmptinessCertificate;
use std::alloc::AllocError;

/// A product is first looked at when it has so many nodes.
const FIRST_NODES: u32 = 256;

/// What is proposed.
#[derive(Drop)]
pub enum SatisfactionProposal {
    /// No run of the circuit satisfies the formula: a certificate, and what guides its check.
    Satisfied(EmptinessCertificate, EmptyProduct),
    /// On these inputs the circuit's run satisfies the formula.
    Violated(InputLasso),
    /// Nothing, since there is too much of something.
    GivenUp(SearchLimit),
}

/// Proposes evidence that no run of a circuit satisfies the formula at the place `root`, which is the negation of what the circuit should
/// satisfy; or proposes inputs, with a value for each of the circuit's, on which its run does. Fails only if an allocation fails.
pub fn propose(
    circuit: &mut CircuitPieces,
    nodes: &[NormalNode],
    root: usize,
    limits: Limits,
) -> Result<SatisfactionProposal, AllocError> {
    match search(circuit, nodes, root, limits) {
        Ok(proposal) => Ok(proposal),
        Err(SearchStop::GivenUp(limit)) => Ok(SatisfactionProposal::GivenUp(limit)),
        Err(SearchStop::OutOfMemory) => Err(AllocError),
    }
}

/// A product without a run that satisfies the formula, and its ranks; or inputs on which the circuit's run does.
#[derive(Drop)]
enum SearchOutcome {
    Empty(CircuitProduct, ProductRanks),
    Run(OpenLasso),
}

/// Proposes, or says why nothing is proposed. Begins with few conjuncts of the formula, and adds more as long as there is a run on which the
/// others hold.
fn search(
    circuit: &mut CircuitPieces,
    nodes: &[NormalNode],
    root: usize,
    limits: Limits,
) -> SearchResult<SatisfactionProposal> {
    let mut selection = ConjunctSelection::new(circuit.alloc(), nodes, root)?;
    for _ in 0..selection.len().saturating_add(2) {
        match tried(circuit, nodes, root, &selection, limits) {
            Ok(SearchOutcome::Empty(product, ranks)) => {
                return Ok(satisfied(circuit, product, ranks)?);
            }
            Ok(SearchOutcome::Run(lasso)) => {
                if let Some(lasso) = selection.learn(circuit, nodes, root, &lasso)? {
                    return Ok(SatisfactionProposal::Violated(lasso));
                }
            }
            Err(SearchStop::GivenUp(_)) if !selection.is_whole() => selection.keep_all(),
            Err(stop) => return Err(stop),
        }
    }
    Err(SearchStop::GivenUp(SearchLimit::CubeSteps))
}

/// Looks for a run on which the selected conjuncts hold. Spends only a part of what it may on a few of them.
fn tried(
    circuit: &mut CircuitPieces,
    nodes: &[NormalNode],
    root: usize,
    selection: &ConjunctSelection,
    limits: Limits,
) -> SearchResult<SearchOutcome> {
    let mut limits = limits;
    if !selection.is_whole() {
        limits.nodes /= 8;
        limits.steps /= 8;
    }
    let mut product = begun(circuit, nodes, root, selection)?;
    let mut end = FIRST_NODES;
    for _ in 0..32 {
        let is_whole = product.explore(circuit, end, &mut limits)?;
        let ranks = ranks_of(&product)?;
        if let Some(component) = ranks.fulfilling() {
            let lasso = lasso_of(circuit, &product, &ranks, component, &circuit.inputs)?;
            return Ok(SearchOutcome::Run(lasso));
        }
        if is_whole {
            return Ok(SearchOutcome::Empty(product, ranks));
        }
        end = end.saturating_mul(2);
    }
    Err(SearchStop::GivenUp(SearchLimit::Nodes))
}

/// Returns what a product without a run shows.
fn satisfied(
    circuit: &mut CircuitPieces,
    product: CircuitProduct,
    ranks: ProductRanks,
) -> Result<SatisfactionProposal, AllocError> {
    let certificate = certificate_of(circuit, &product, &ranks)?;
    let empty = EmptyProduct::new(product, ranks, circuit.machine.len())?;
    Ok(SatisfactionProposal::Satisfied(certificate, empty))
}

/// Returns the certificate that a product and its ranks make.
fn certificate_of(
    circuit: &mut CircuitPieces,
    product: &CircuitProduct,
    ranks: &ProductRanks,
) -> Result<EmptinessCertificate, AllocError> {
    let alloc = product.alloc;
    let formulas = &product.tableau.formulas;
    let nodes = product.len();
    let mut certificate = EmptinessCertificate {
        places: Vec::with_capacity(alloc, nodes as usize)?,
        asks: Vec::with_capacity(alloc, nodes as usize)?,
        ranks: Vec::with_capacity(alloc, nodes as usize)?,
        witnesses: Vec::with_capacity(alloc, ranks.common.len())?,
    };
    for v in 0..nodes {
        let node = product.node(v);
        let cube = circuit.number(node.state)? as usize;
        certificate.places.push(cube)?;
        let asks = formulas.places_of(alloc, product.tableau.asks(node.set))?;
        certificate.asks.push(asks)?;
        certificate.ranks.push(ranks.of(v))?;
    }
    for rank in 0..count(ranks.common.len()) {
        let until = match ranks.witness(rank) {
            Some(number) => Some(formulas.place(number)),
            None => None,
        };
        certificate.witnesses.push(until)?;
    }
    Ok(certificate)
}

/// Returns the product of a circuit and the tableau of the selected conjuncts, which has only the start so far.
fn begun(
    circuit: &mut CircuitPieces,
    nodes: &[NormalNode],
    root: usize,
    selection: &ConjunctSelection,
) -> SearchResult<CircuitProduct> {
    let alloc = circuit.alloc();
    let left_out = selection.left_out(alloc)?;
    circuit.begin(&propositions_of(alloc, nodes, root, &left_out)?)?;
    circuit.machine.check()?;
    let formulas = Formulas::new(alloc, &circuit.machine, nodes, root, &left_out)?;
    let tableau = CubeTableau::new(alloc, formulas)?;
    CircuitProduct::new(alloc, tableau)
}
