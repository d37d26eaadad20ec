//! The moves that may be made in place of a machine's moves.

use crate::game::WinningRows;
use crate::machine::Machine;
use crate::numbers::{Allocated, NONE, at, count, item, power, put, spend};
use crate::product::{MachineProduct, places_of};
use crate::steps::Steps;
use pg_search_components::{Edges, TargetRows};
use std::ops::Range;

/// The moves at each point, in ascending order of output letters. Whichever are chosen, every run is accepted, since the measure of each
/// pair serves.
#[derive(Drop)]
pub struct Freedom {
    pub states: u32,
    pub inputs: u32,
    pub outputs: u32,
    /// Where the moves of each point begin, and where those of the last end.
    firsts: Vec<u32>,
    /// The output letter of each move; `nexts` has its next state.
    pub letters: Vec<u32>,
    pub nexts: Vec<u32>,
    /// Where the automaton's edges lead, as states of the machine, or `NONE`: at `letter * states + state`, by input letter and then output
    /// letter.
    pub edges: Vec<u32>,
}

impl Freedom {
    pub fn points(&self) -> u32 {
        self.states.wrapping_shl(self.inputs)
    }

    /// Returns the places of the moves of a point.
    pub fn places(&self, point: u32) -> Range<u32> {
        let end = at(&self.firsts, point.saturating_add(1));
        at(&self.firsts, point)..end.min(count(self.nexts.len()))
    }

    /// Returns a freedom of one move at each point, with these output letters and next states.
    pub fn none(
        (states, inputs, outputs): (u32, u32, u32),
        letters: Vec<u32>,
        nexts: Vec<u32>,
    ) -> Allocated<Freedom> {
        let alloc = *nexts.allocator();
        let mut firsts = Vec::new(alloc);
        for point in 0..=states.wrapping_shl(inputs) {
            firsts.push(point)?;
        }
        Ok(Freedom {
            states,
            inputs,
            outputs,
            firsts,
            letters,
            nexts,
            edges: Vec::new(alloc),
        })
    }

    /// Returns the moves that may be made in place of a machine's moves, or `None` if there is too much to look at.
    pub fn of(machine: &Machine, steps: &Steps, looks: &mut u64) -> Allocated<Option<Freedom>> {
        let Some(mut looking) = Looking::new(machine, steps, looks)? else {
            return Ok(None);
        };
        let letters = steps.place(power(steps.inputs), 0);
        let size = letters.saturating_mul(machine.states) as usize;
        let mut free = Freedom {
            states: machine.states,
            inputs: steps.inputs,
            outputs: steps.outputs,
            firsts: Vec::new(steps.alloc),
            letters: Vec::new(steps.alloc),
            nexts: Vec::new(steps.alloc),
            edges: vec![in steps.alloc; NONE; size]?,
        };
        for point in 0..free.points() {
            free.firsts.push(count(free.nexts.len()))?;
            let state = point.wrapping_shr(steps.inputs);
            for output in 0..power(steps.outputs) {
                let letter = steps.place(point & power(steps.inputs).wrapping_sub(1), output);
                let place = letter.wrapping_mul(machine.states).wrapping_add(state);
                put(&mut free.edges, place, looking.holder(state, letter, 0));
                let next = if at(&machine.outputs, point) == output {
                    at(&machine.nexts, point)
                } else {
                    looking.next(state, letter, looks)?
                };
                if next != NONE {
                    free.letters.push(output)?;
                    free.nexts.push(next)?;
                }
            }
        }
        free.firsts.push(count(free.nexts.len()))?;
        Ok(Some(free))
    }
}

/// A machine whose freedom is looked for.
#[derive(Drop)]
struct Looking<'a> {
    steps: &'a Steps,
    product: MachineProduct,
    /// The pairs of each of the machine's states; `holders` has the pairs of each of the automaton's.
    pairs: TargetRows,
    holders: TargetRows,
    /// The measures of the pairs.
    measures: WinningRows,
}

impl<'a> Looking<'a> {
    fn new(machine: &Machine, steps: &'a Steps, looks: &mut u64) -> Allocated<Option<Looking<'a>>> {
        let Some(product) = MachineProduct::of(
            machine,
            steps,
            &[(0, steps.start)],
            u32::MAX,
            looks,
        )?
        else {
            return Ok(None);
        };
        let Some(measures) = WinningRows::of(&product.steps(machine, steps)?, looks)? else {
            return Ok(None);
        };
        Ok(Some(Looking {
            steps,
            pairs: places_of(steps.alloc, &product.states, machine.states)?,
            holders: places_of(steps.alloc, &product.besides, steps.states)?,
            product,
            measures,
        }))
    }

    /// Takes the automaton's first state beside a state of the machine, and goes from it by a letter. Returns the machine's state at a
    /// place among those that are met beside the automaton's state that is reached, or `NONE`.
    fn holder(&self, state: u32, letter: u32, place: u32) -> u32 {
        let pair = item(self.pairs.targets(state), 0, NONE);
        let step = self.steps.step(at(&self.product.besides, pair), letter);
        let pair = item(self.holders.targets(step.target), place, NONE);
        at(&self.product.states, pair)
    }

    /// Returns a next state with which a letter serves beside each state of the automaton, or `NONE`.
    fn next(&mut self, state: u32, letter: u32, looks: &mut u64) -> Allocated<u32> {
        for place in 0..u32::MAX {
            let next = self.holder(state, letter, place);
            let mut serves = true;
            for pair in self.pairs.targets(state) {
                let mut step = self.steps.step(at(&self.product.besides, *pair), letter);
                step.target = self.product.number(next, step.target);
                serves = serves && spend(looks, 1) && self.measures.serves(*pair, step)?;
            }
            if serves || next == NONE {
                return Ok(next);
            }
            if *looks == 0 {
                break;
            }
        }
        Ok(NONE)
    }
}
