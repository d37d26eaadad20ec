//! What is proposed: a certificate or a lasso.

ghost use Rattle.pg_ltl.specs.Mirrors.Nodes.{AreNormalNodes};

use crate::graph::{Ranks, is_inside, ranks_up_to};
use crate::product::{Product, product_of};
pub use crate::way::Lasso;
use crate::way::{common_places, lasso_of};
use pg_ltl::NormalNode;
use pg_means_look::{Certificate, Finder, Level, Node, ParityAutomaton};
use pg_search_components::{count, item};
use std::alloc::{AllocError, AllocFailed, Global};

/// Why nothing is proposed.
#[derive(Clone, Copy, Debug, PartialEq, Eq)]
pub enum SearchFault {
    /// An allocation failed.
    OutOfMemory,
    /// There are more than 16,777,216 arcs, 268,435,456 edges of which arcs are made, or 33,554,432 sets, or formulas that sets can hold,
    /// times letters.
    TooLarge,
}

impl From<AllocError> for SearchFault {
    fn from(_e: AllocError) -> SearchFault {
        SearchFault::OutOfMemory
    }
}

impl<T: Drop> From<AllocFailed<T>> for SearchFault {
    fn from(_e: AllocFailed<T>) -> SearchFault {
        SearchFault::OutOfMemory
    }
}

/// A certificate, and the product that finds the certificate's nodes.
#[derive(Drop)]
pub struct ProposedCertificate {
    pub certificate: Certificate,
    product: Product,
}

impl Finder for ProposedCertificate {
    fn find(&self, state: u32, asks: &[usize]) -> Option<usize> {
        self.product.find(state, asks)
    }
}

/// What is proposed.
#[derive(Drop)]
pub enum Proposed {
    /// No word satisfies the formula and has a greatest recurring priority of the parity.
    Empty(ProposedCertificate),
    /// This word satisfies the formula and has a greatest recurring priority of the parity.
    Word(Lasso),
}

/// The result for one priority.
#[derive(Drop)]
enum Leveled {
    Fine(Level),
    Bad(Lasso),
}

/// What is known of a component: whether the priority is met inside, and which Untils every arc inside puts off.
#[derive(Drop)]
struct Inner {
    met: bool,
    common: Option<Vec<usize>>,
}

/// Returns what is known of each component.
fn inner_of(
    alloc: Global,
    product: &Product,
    found: &Ranks,
    priority: u32,
) -> Result<Vec<Inner>, AllocError> {
    let mut inner = Vec::new(alloc);
    for _ in 0..found.components {
        inner.push(Inner {
            met: false,
            common: None,
        })?;
    }
    for v in 0..product.len() {
        let rank = found.ranks.get(v).copied().unwrap_or(0) as usize;
        for arc in product.arcs(v) {
            if rank >= inner.len() || !is_inside(&found.ranks, v, arc, priority) {
                continue;
            }
            let puts = product.puts.list(arc.puts);
            let here = &mut inner[rank];
            here.met = here.met || arc.priority == priority;
            let common = match &here.common {
                Some(common) => common_places(alloc, common, puts)?,
                None => Vec::from_slice(alloc, puts)?,
            };
            here.common = Some(common);
        }
    }
    Ok(inner)
}

/// Returns the level of a priority, or a word.
fn level_of(
    alloc: Global,
    product: &Product,
    priority: u32,
    formulas: usize,
) -> Result<Leveled, AllocError> {
    let found = ranks_up_to(alloc, product, priority)?;
    let inner = inner_of(alloc, product, &found, priority)?;
    let mut witnesses = Vec::with_capacity(alloc, inner.len())?;
    for (number, here) in inner.iter().enumerate() {
        let until = match &here.common {
            Some(common) => common.first().copied(),
            None => None,
        };
        if here.met && until.is_none() {
            let component = number.min(u32::MAX as usize) as u32;
            return Ok(Leveled::Bad(lasso_of(
                alloc,
                product,
                &found.ranks,
                component,
                priority,
                formulas,
            )?));
        }
        witnesses.push(if here.met { until } else { None })?;
    }
    Ok(Leveled::Fine(Level {
        ranks: found.ranks,
        witnesses,
    }))
}

/// Returns for each priority up to the greatest whether some arc has it.
fn met_priorities(alloc: Global, product: &Product) -> Result<Vec<bool>, AllocError> {
    let mut met = Vec::new(alloc);
    for v in 0..product.len() {
        for arc in product.arcs(v) {
            let priority = arc.priority as usize;
            for _ in met.len()..priority.saturating_add(1) {
                met.push(false)?;
            }
            if priority < met.len() {
                met[priority] = true;
            }
        }
    }
    Ok(met)
}

/// Returns the nodes of the product.
fn nodes_of(alloc: Global, product: &Product) -> Result<Vec<Node>, AllocError> {
    let mut nodes = Vec::with_capacity(alloc, product.len())?;
    for v in 0..product.len() {
        let pair = product.nodes.list(count(v));
        nodes.push(Node {
            state: item(pair, 0, 0),
            set: item(pair, 1, 0) as usize,
        })?;
    }
    Ok(nodes)
}

/// Returns the sets of the product.
fn sets_of(alloc: Global, product: &Product) -> Result<Vec<Vec<usize>>, AllocError> {
    let mut sets = Vec::with_capacity(alloc, product.sets.len() as usize)?;
    for number in 0..product.sets.len() {
        sets.push(Vec::from_slice(alloc, product.sets.list(number))?)?;
    }
    Ok(sets)
}

/// Proposes evidence that no word satisfies the formula at the place `root` of a list and has in the automaton a greatest recurring
/// priority of this parity, 0 for even, 1 for odd; or proposes such a word. A proposal must be checked. Fails with `TooLarge` if the
/// product exceeds a limit, and with `OutOfMemory` if an allocation fails.
pub fn propose(
    alloc: Global,
    automaton: &ParityAutomaton,
    nodes: &[NormalNode],
    root: usize,
    parity: u32,
) -> Result<Proposed, SearchFault>
    requires { AreNormalNodes nodes.now }
{
    let product = product_of(alloc, automaton, nodes, root, parity)?;
    let met = met_priorities(alloc, &product)?;
    let mut levels = Vec::new(alloc);
    let mut priority = parity;
    for _ in 0..met.len().saturating_add(1) {
        if priority as usize > met.len() {
            break;
        }
        if !met.get(priority as usize).copied().unwrap_or(false) {
            levels.push(Level {
                ranks: Vec::new(alloc),
                witnesses: Vec::new(alloc),
            })?;
        } else {
            match level_of(alloc, &product, priority, nodes.len())? {
                Leveled::Fine(level) => levels.push(level)?,
                Leveled::Bad(lasso) => return Ok(Proposed::Word(lasso)),
            }
        }
        priority = priority.saturating_add(2);
    }
    let certificate = Certificate {
        nodes: nodes_of(alloc, &product)?,
        sets: sets_of(alloc, &product)?,
        levels,
    };
    Ok(Proposed::Empty(ProposedCertificate {
        certificate,
        product,
    }))
}
