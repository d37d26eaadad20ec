//! The product of a machine and an automaton: pairs of states that are met together.

use crate::machine::{Machine, points};
use crate::numbers::{Allocated, NONE, at, count, put, spend};
use crate::steps::{GameStep, Steps};
use pg_search_components::TargetRows;
use std::alloc::Global;

/// The most pairs that there may be numbers for.
const MAX_PAIRS: u64 = 1 << 20;

/// A product. Pairs are numbered in the order in which they are met.
#[derive(Drop)]
pub struct MachineProduct {
    /// The machine's state of each pair; `besides` has the automaton's.
    pub states: Vec<u32>,
    pub besides: Vec<u32>,
    /// The number of each pair, or `NONE`.
    numbers: Vec<u32>,
    width: u32,
}

impl MachineProduct {
    /// Returns the product of a machine, from the pairs of `starts` on. `None` if the automaton has no edge for a step, if there are more
    /// than `most` pairs, or if it takes too long, as with too many pairs to number.
    pub fn of(
        machine: &Machine,
        steps: &Steps,
        starts: &[(u32, u32)],
        most: u32,
        looks: &mut u64,
    ) -> Allocated<Option<MachineProduct>> {
        let many = (machine.states as u64).saturating_mul(steps.states as u64);
        if many > MAX_PAIRS || !spend(looks, many / 16) {
            *looks = 0;
            return Ok(None);
        }
        let mut product = MachineProduct {
            states: Vec::new(steps.alloc),
            besides: Vec::new(steps.alloc),
            numbers: vec![in steps.alloc; NONE; many as usize]?,
            width: steps.states,
        };
        for (state, beside) in starts {
            product.meet(*state, *beside)?;
        }
        for place in 0..u32::MAX {
            let state = at(&product.states, place);
            if state == NONE {
                break;
            }
            if count(product.states.len()) > most {
                return Ok(None);
            }
            for point in points(state, machine.inputs) {
                let step = machine.step(steps, at(&product.besides, place), point);
                if step.target == NONE || !spend(looks, 1) {
                    return Ok(None);
                }
                product.meet(at(&machine.nexts, point), step.target)?;
            }
        }
        Ok(Some(product))
    }

    pub fn len(&self) -> u32 {
        count(self.states.len())
    }

    /// Returns the number of a pair, or `NONE`.
    pub fn number(&self, state: u32, beside: u32) -> u32 {
        at(
            &self.numbers,
            state.wrapping_mul(self.width).wrapping_add(beside),
        )
    }

    /// Numbers a pair, unless it is known.
    fn meet(&mut self, state: u32, beside: u32) -> Allocated<()> {
        if self.number(state, beside) == NONE {
            let place = state.wrapping_mul(self.width).wrapping_add(beside);
            put(&mut self.numbers, place, count(self.states.len()));
            self.states.push(state)?;
            self.besides.push(beside)?;
        }
        Ok(())
    }

    /// Returns all runs, as steps from pair to pair with no outputs to choose.
    pub fn steps(&self, machine: &Machine, steps: &Steps) -> Allocated<Steps> {
        let mut table = Vec::new(steps.alloc);
        for (state, beside) in self.states.iter().zip(&self.besides) {
            for point in points(*state, machine.inputs) {
                let step = machine.step(steps, *beside, point);
                let target = self.number(at(&machine.nexts, point), step.target);
                let priority = step.priority;
                table.push(GameStep { target, priority })?;
            }
        }
        Ok(Steps {
            alloc: steps.alloc,
            states: count(self.states.len()),
            start: 0,
            inputs: steps.inputs,
            outputs: 0,
            table,
        })
    }
}

/// Returns for each number below `many` its places in a list.
pub fn places_of(alloc: Global, numbers: &[u32], many: u32) -> Allocated<TargetRows> {
    let mut rows = TargetRows::with_capacity(alloc, 0)?;
    rows.clear(many)?;
    for number in numbers {
        rows.count(*number);
    }
    rows.make_room()?;
    for place in (0..count(numbers.len())).rev() {
        rows.put(at(numbers, place), place);
    }
    Ok(rows)
}
