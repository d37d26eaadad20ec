//! Which conjuncts of a formula the search begins with, and which ones it adds. Without some conjuncts a formula holds on more runs; where it
//! holds on none, neither does the whole formula.

use crate::formulas::{node_at, propositions_of};
use crate::lasso::{InputLasso, OpenLasso};
use crate::numbers::{NONE, count, item, put};
use crate::pieces::CircuitPieces;
use crate::trace::SystemTrace;
use pg_ltl::NormalNode;
use std::alloc::{AllocError, Global};

/// The most conjuncts of which some are left out.
const MOST_CONJUNCTS: usize = 256;

/// The places of a formula's conjuncts, and which of them are kept.
#[derive(Drop)]
pub struct ConjunctSelection {
    conjuncts: Vec<usize>,
    is_kept: Vec<bool>,
}

/// Returns the places of the conjuncts of the formula at the place `root`, or only that place if they are too many.
fn conjuncts_of(
    alloc: Global,
    nodes: &[NormalNode],
    root: usize,
) -> Result<Vec<usize>, AllocError> {
    let mut found = Vec::new(alloc);
    let mut open = vec![in alloc; root; 1]?;
    for _ in 0..2 * MOST_CONJUNCTS {
        let Some(place) = open.pop() else {
            return Ok(found);
        };
        if let NormalNode::Both(a, b) = node_at(nodes, place) {
            open.push(b)?;
            open.push(a)?;
        } else {
            found.push(place)?;
        }
    }
    vec![in alloc; root; 1]
}

impl ConjunctSelection {
    /// Keeps only the last conjunct of the formula at the place `root`, which mostly says that some guarantee doesn't hold.
    pub fn new(
        alloc: Global,
        nodes: &[NormalNode],
        root: usize,
    ) -> Result<ConjunctSelection, AllocError> {
        let conjuncts = conjuncts_of(alloc, nodes, root)?;
        let mut is_kept = vec![in alloc; false; conjuncts.len()]?;
        put(&mut is_kept, count(conjuncts.len().saturating_sub(1)), true);
        Ok(ConjunctSelection { conjuncts, is_kept })
    }

    /// Returns the number of conjuncts.
    pub fn len(&self) -> usize {
        self.conjuncts.len()
    }

    /// Whether no conjunct is left out.
    pub fn is_whole(&self) -> bool {
        self.is_kept.iter().all(|is_kept| *is_kept)
    }

    /// Keeps all conjuncts.
    pub fn keep_all(&mut self) {
        for is_kept in self.is_kept.iter_mut() {
            *is_kept = true;
        }
    }

    /// Returns the places of the conjuncts that are left out, in rising order.
    pub fn left_out(&self, alloc: Global) -> Result<Vec<usize>, AllocError> {
        let mut places = Vec::new(alloc);
        for (number, place) in self.conjuncts.iter().enumerate() {
            if !item(&self.is_kept, count(number), true) {
                places.push(*place)?;
            }
        }
        places.sort_unstable();
        places.dedup();
        Ok(places)
    }

    /// Returns the lasso with inputs that nothing determines set so that each conjunct holds, if that was found. Otherwise keeps one more
    /// conjunct, that doesn't hold on it.
    pub fn learn(
        &mut self,
        circuit: &CircuitPieces,
        nodes: &[NormalNode],
        root: usize,
        lasso: &OpenLasso,
    ) -> Result<Option<InputLasso>, AllocError> {
        let alloc = circuit.alloc();
        let mut failures = vec![in alloc; 0u32; self.conjuncts.len()]?;
        for other in [false, true] {
            let Some(trace) = traced(circuit, lasso, other)? else {
                self.keep_all();
                return Ok(None);
            };
            let holds = trace.judged(alloc, nodes, root, &self.conjuncts)?;
            if self.is_whole() || holds.iter().all(|it| *it) {
                let SystemTrace { letters, back, .. } = trace;
                return Ok(Some(InputLasso { letters, back }));
            }
            count_failures(&mut failures, &holds);
        }
        match self.best(circuit, nodes, &failures)? {
            Some(number) => put(&mut self.is_kept, number, true),
            None => self.keep_all(),
        }
        Ok(None)
    }

    /// Returns the number of the conjunct to keep next: it fails most often, and if possible it speaks of the part of the circuit that is
    /// looked at.
    fn best(
        &self,
        circuit: &CircuitPieces,
        nodes: &[NormalNode],
        failures: &[u32],
    ) -> Result<Option<u32>, AllocError> {
        let mut best = None;
        let mut most = 0;
        for (number, place) in self.conjuncts.iter().enumerate() {
            let number = count(number);
            let failed = item(failures, number, 0);
            if item(&self.is_kept, number, true) || failed == 0 {
                continue;
            }
            let is_near = is_near(circuit, nodes, *place)?;
            let value = failed.saturating_mul(2).saturating_add(is_near as u32);
            if value > most {
                most = value;
                best = Some(number);
            }
        }
        Ok(best)
    }
}

/// Counts for each conjunct how often it doesn't hold.
fn count_failures(failures: &mut [u32], holds: &[bool]) {
    for number in 0..count(holds.len()) {
        if !item(holds, number, true) {
            let before = item(failures, number, 0);
            put(failures, number, before.saturating_add(1));
        }
    }
}

/// Returns the run of the circuit on a lasso, if it comes back to one of its states soon.
fn traced(
    circuit: &CircuitPieces,
    lasso: &OpenLasso,
    other: bool,
) -> Result<Option<SystemTrace>, AllocError> {
    SystemTrace::on(
        circuit.alloc(),
        &circuit.system,
        circuit.variables,
        &circuit.inputs,
        &lasso.letters,
        lasso.back,
        other,
    )
}

/// Whether the formula at a place speaks of a signal of the circuit's part that is looked at.
fn is_near(
    circuit: &CircuitPieces,
    nodes: &[NormalNode],
    place: usize,
) -> Result<bool, AllocError> {
    for proposition in &propositions_of(circuit.alloc(), nodes, place, &[])? {
        let literal = item(&circuit.system.literals, *proposition, 0);
        if circuit.machine.signals.of(literal / 2) != NONE {
            return Ok(true);
        }
    }
    Ok(false)
}
