//! The run of a system on a lasso of inputs, and which formulas hold on it.

use crate::formulas::{node_at, parts_of};
use crate::numbers::{count, item, put};
use pg_ltl::NormalNode;
use pg_satisfies_check::CircuitPart;
use pg_search_components::NumberedLists;
use std::alloc::{AllocError, Global};

/// The most steps of a run that are looked at.
const MOST_STEPS: usize = 4096;

/// A run that comes back to one of its states: after the last step comes the one at the place `back` again.
#[derive(Drop)]
pub struct SystemTrace {
    /// The values of the inputs in each step.
    pub letters: Vec<Vec<bool>>,
    pub back: usize,
    /// The values of the propositions in each step.
    truths: Vec<Vec<bool>>,
    /// The values of all variables in the last step, and those of the latches in the next one.
    values: Vec<bool>,
    state: Vec<bool>,
}

/// Returns the value of a literal.
fn value_of(values: &[bool], literal: u32) -> bool {
    item(values, literal / 2, false) != (literal % 2 == 1)
}

impl SystemTrace {
    /// Takes one more step. Inputs for which the letter has no value get the other one.
    fn step(
        &mut self,
        alloc: Global,
        system: &CircuitPart,
        inputs: &[u32],
        letter: &[Option<bool>],
        other: bool,
    ) -> Result<(), AllocError> {
        let mut row = Vec::with_capacity(alloc, inputs.len())?;
        for (place, literal) in inputs.iter().enumerate() {
            let value = item(letter, count(place), None).unwrap_or(other);
            put(&mut self.values, *literal / 2, value);
            row.push(value)?;
        }
        self.letters.push(row)?;
        for (place, latch) in system.latches.iter().enumerate() {
            let value = item(&self.state, count(place), false);
            put(&mut self.values, latch.literal / 2, value);
        }
        for gate in &system.gates {
            let value = value_of(&self.values, gate.rhs0) && value_of(&self.values, gate.rhs1);
            put(&mut self.values, gate.lhs / 2, value);
        }
        self.state.clear();
        for latch in &system.latches {
            self.state.push(value_of(&self.values, latch.next))?;
        }
        let mut truth = Vec::with_capacity(alloc, system.literals.len())?;
        for literal in &system.literals {
            truth.push(value_of(&self.values, *literal))?;
        }
        self.truths.push(truth)?;
        Ok(())
    }

    /// Returns the run on a lasso of inputs, if it comes back to one of its states soon. The variables are below `variables`.
    pub fn on(
        alloc: Global,
        system: &CircuitPart,
        variables: usize,
        inputs: &[u32],
        letters: &[Vec<Option<bool>>],
        back: usize,
        other: bool,
    ) -> Result<Option<SystemTrace>, AllocError> {
        let mut trace = SystemTrace {
            letters: Vec::new(alloc),
            back: 0,
            truths: Vec::new(alloc),
            values: vec![in alloc; false; variables]?,
            state: vec![in alloc; false; system.latches.len()]?,
        };
        let back = back.min(letters.len());
        for letter in &letters[..back] {
            trace.step(alloc, system, inputs, letter, other)?;
        }
        let mut states = NumberedLists::new(alloc);
        for round in 0..count(MOST_STEPS) {
            let number = states.number(&trace.state)?;
            if number != round {
                let length = letters.len().saturating_sub(back);
                trace.back = back.saturating_add(length.saturating_mul(number as usize));
                return Ok(Some(trace));
            }
            if trace.letters.len() > MOST_STEPS {
                break;
            }
            for letter in &letters[back..] {
                trace.step(alloc, system, inputs, letter, other)?;
            }
        }
        Ok(None)
    }

    /// Returns the place after another one.
    fn next(&self, place: usize) -> usize {
        let next = place.saturating_add(1);
        if next < self.truths.len() {
            next
        } else {
            self.back
        }
    }

    /// Returns whether a part holds at a place, by the values of its operands, and by its own one at the next place.
    fn holds(&self, rows: &[Vec<bool>], node: NormalNode, place: usize, later: bool) -> bool {
        let at = |part: usize, place: usize| match rows.get(part) {
            Some(row) => item(row, count(place), false),
            None => false,
        };
        match node {
            NormalNode::Top => true,
            NormalNode::Bottom => false,
            NormalNode::Literal(p, value) => match self.truths.get(place) {
                Some(truth) => item(truth, p, false) == value,
                None => false,
            },
            NormalNode::Both(a, b) => at(a, place) && at(b, place),
            NormalNode::Either(a, b) => at(a, place) || at(b, place),
            NormalNode::Next(a) => at(a, self.next(place)),
            NormalNode::Until(a, b) => at(b, place) || at(a, place) && later,
            NormalNode::Release(a, b) => at(b, place) && (at(a, place) || later),
        }
    }

    /// Returns the values of a part in all steps, by those of its operands.
    fn row(
        &self,
        alloc: Global,
        rows: &[Vec<bool>],
        node: NormalNode,
    ) -> Result<Vec<bool>, AllocError> {
        let is_release = matches!(node, NormalNode::Release(_, _));
        let mut row = vec![in alloc; is_release; self.truths.len()]?;
        for _ in 0..2 {
            for place in (0..self.truths.len()).rev() {
                let later = item(&row, count(self.next(place)), false);
                let value = self.holds(rows, node, place, later);
                put(&mut row, count(place), value);
            }
        }
        Ok(row)
    }

    /// Returns for each of some formulas whether it holds on the run.
    pub fn judged(
        &self,
        alloc: Global,
        nodes: &[NormalNode],
        root: usize,
        places: &[usize],
    ) -> Result<Vec<bool>, AllocError> {
        let parts = parts_of(alloc, nodes, root, &[])?;
        let mut rows = Vec::with_capacity(alloc, parts.len())?;
        for part in &parts {
            let node = located(&parts, node_at(nodes, *part));
            let row = self.row(alloc, &rows, node)?;
            rows.push(row)?;
        }
        let mut judged = Vec::with_capacity(alloc, places.len())?;
        for place in places {
            let holds = match rows.get(position_in(&parts, *place)) {
                Some(row) => item(row, 0, false),
                None => false,
            };
            judged.push(holds)?;
        }
        Ok(judged)
    }
}

/// Returns the position of a place in a rising list, or `usize::MAX` if it isn't there.
pub fn position_in(places: &[usize], place: usize) -> usize {
    places.binary_search(&place).unwrap_or(usize::MAX)
}

/// Returns a part with operands by their positions in a rising list of places.
pub fn located(places: &[usize], node: NormalNode) -> NormalNode {
    let at = |place: usize| position_in(places, place);
    match node {
        NormalNode::Both(a, b) => NormalNode::Both(at(a), at(b)),
        NormalNode::Either(a, b) => NormalNode::Either(at(a), at(b)),
        NormalNode::Next(a) => NormalNode::Next(at(a)),
        NormalNode::Until(a, b) => NormalNode::Until(at(a), at(b)),
        NormalNode::Release(a, b) => NormalNode::Release(at(a), at(b)),
        leaf => leaf,
    }
}
