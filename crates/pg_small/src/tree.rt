//! Circuits of large machines: the latches hold the number of the state, and each literal is a tree of choices by the bits of inputs and
//! latches, in which equal parts are shared.

use crate::machine::Machine;
use crate::net::Conjunction;
use crate::numbers::{Allocated, NONE, at, count, has_bit, width};
use crate::proposal::SmallCircuit;
use crate::steps::Steps;
use std::alloc::Global;
use std::collections::BTreeMap;

/// The most rows that a machine may have.
const MOST_ROWS: u32 = 1 << 20;

/// Gates, whose variables come after `variables` others.
#[derive(Drop)]
struct TreeDraft {
    alloc: Global,
    variables: u32,
    gates: Vec<Conjunction>,
    known: BTreeMap<(u32, u32), u32>,
}

impl TreeDraft {
    /// Returns the conjunction of two literals.
    fn and(&mut self, x: u32, y: u32) -> Allocated<u32> {
        let (left, right) = (x.max(y), x.min(y));
        if right == 0 || left == right ^ 1 {
            return Ok(0);
        }
        if right == 1 || left == right {
            return Ok(left);
        }
        let known = self.known.get(&(left, right)).copied();
        if let Some(known) = known {
            return Ok(known);
        }
        self.gates.push(Conjunction { left, right })?;
        let variable = self.variables.saturating_add(count(self.gates.len()));
        let literal = variable.saturating_mul(2);
        self.known.insert((left, right), literal)?;
        Ok(literal)
    }

    /// Returns the choice of one of two literals by the bit of a variable. A literal is `NONE` where either value serves.
    fn choice(&mut self, variable: u32, low: u32, high: u32) -> Allocated<u32> {
        if low == NONE || low == high {
            return Ok(high);
        }
        if high == NONE {
            return Ok(low);
        }
        let literal = variable.saturating_mul(2);
        let one = self.and(literal, high)?;
        let two = self.and(literal | 1, low)?;
        Ok(self.and(one ^ 1, two ^ 1)? ^ 1)
    }

    /// Returns the literal that is bit `n` of these numbers, row after row of the machine.
    fn bit(&mut self, numbers: &[u32], n: u32) -> Allocated<u32> {
        let mut row = Vec::new(self.alloc);
        for number in numbers {
            row.push(has_bit(*number, n) as u32)?;
        }
        for variable in 1..self.variables.saturating_add(1) {
            let mut next = Vec::new(self.alloc);
            for pair in row.chunks(2) {
                next.push(self.choice(variable, at(pair, 0), at(pair, 1))?)?;
            }
            row = next;
        }
        Ok(at(&row, 0))
    }

    /// Returns the literals of the first `many` bits of numbers.
    fn bits(&mut self, numbers: &[u32], many: u32) -> Allocated<Vec<u32>> {
        let mut literals = Vec::new(self.alloc);
        for n in 0..many {
            literals.push(self.bit(numbers, n)?)?;
        }
        Ok(literals)
    }
}

/// Returns the circuit of a machine, or `None` if the machine is too large. Its outputs depend on no input if they don't in the machine.
pub fn tree_of(machine: &Machine, steps: &Steps) -> Allocated<Option<SmallCircuit>> {
    if count(machine.nexts.len()) > MOST_ROWS {
        return Ok(None);
    }
    let bits = width(machine.states);
    let mut draft = TreeDraft {
        alloc: steps.alloc,
        variables: machine.inputs.saturating_add(bits),
        gates: Vec::new(steps.alloc),
        known: BTreeMap::new(steps.alloc),
    };
    let outputs = draft.bits(&machine.outputs, steps.outputs)?;
    let latches = draft.bits(&machine.nexts, bits)?;
    Ok(Some(SmallCircuit {
        latches,
        outputs,
        gates: draft.gates,
    }))
}
