//! The steps of an automaton, by state, input letter and output letter.

use crate::numbers::{Allocated, NONE, count, item, power};
use pg_hoa_automaton::{Automaton, Shape};
use std::alloc::Global;

/// The most places that the table of steps may have.
const MAX_PLACES: u64 = 1 << 21;

/// Where a letter leads, and a priority: the controller wins a run if the greatest priority that recurs is even.
#[derive(Clone, Copy, PartialEq, Eq, PartialOrd, Ord)]
pub struct GameStep {
    pub target: u32,
    pub priority: u32,
}

impl GameStep {
    /// Stands for no edge.
    pub const NONE: GameStep = GameStep {
        target: NONE,
        priority: 0,
    };
}

/// A point is a state with an input letter, and a place a point with an output letter; both are numbered state by state.
#[derive(Drop)]
pub struct Steps {
    pub alloc: Global,
    pub states: u32,
    pub start: u32,
    /// How many inputs and outputs there are.
    pub inputs: u32,
    pub outputs: u32,
    /// The step at each place.
    pub table: Vec<GameStep>,
}

impl Steps {
    /// Returns the steps of an automaton, or `None` if it has too many.
    pub fn of(alloc: Global, automaton: &Automaton) -> Allocated<Option<Steps>> {
        let letters = power(automaton.propositions()) as u64;
        if letters.saturating_mul(automaton.states() as u64) > MAX_PLACES {
            return Ok(None);
        }
        let inputs = letters_of(alloc, automaton, false)?;
        let outputs = letters_of(alloc, automaton, true)?;
        let mut table = Vec::new(alloc);
        for state in 0..automaton.states() {
            for input in &inputs {
                for output in &outputs {
                    table.push(step_of(automaton, state, *input | *output))?;
                }
            }
        }
        Ok(Some(Steps {
            alloc,
            states: automaton.states(),
            start: automaton.start(),
            inputs: count(inputs.len()).trailing_zeros(),
            outputs: count(outputs.len()).trailing_zeros(),
            table,
        }))
    }

    pub fn point(&self, state: u32, input: u32) -> u32 {
        state.wrapping_shl(self.inputs).wrapping_add(input)
    }

    pub fn place(&self, point: u32, output: u32) -> u32 {
        point.wrapping_shl(self.outputs).wrapping_add(output)
    }

    pub fn at(&self, place: u32) -> GameStep {
        item(&self.table, place, GameStep::NONE)
    }

    /// Returns the step from a state by a letter, which is an input letter and then an output letter.
    pub fn step(&self, state: u32, letter: u32) -> GameStep {
        self.at(self.place(self.point(state, 0), letter))
    }
}

/// Returns the letters of the propositions that the controller sets, or of those that it doesn't. All other propositions are false in them.
fn letters_of(alloc: Global, automaton: &Automaton, sets: bool) -> Allocated<Vec<u32>> {
    let mut letters = vec![in alloc; 0u32; 1]?;
    for a in 0..automaton.propositions() {
        if automaton.controllable(a) == sets {
            for n in 0..count(letters.len()) {
                letters.push(item(&letters, n, 0) | power(a))?;
            }
        }
    }
    Ok(letters)
}

fn step_of(automaton: &Automaton, state: u32, letter: u32) -> GameStep {
    let Some((target, met)) = automaton.next(state, letter) else {
        return GameStep::NONE;
    };
    let priority = priority_of(automaton.shape(), automaton.sets(), met);
    GameStep { target, priority }
}

/// Returns the priority of a step on which these sets are met, the least first.
fn priority_of(shape: Shape, sets: u32, met: &[u32]) -> u32 {
    let high = sets.saturating_mul(2).saturating_add(4);
    match shape {
        Shape::MaxEven => met.last().map_or(1, |set| set.saturating_add(2)),
        Shape::MaxOdd => met.last().map_or(0, |set| set.saturating_add(3)),
        Shape::MinEven => met
            .first()
            .map_or(sets % 2, |set| high.saturating_sub(*set)),
        Shape::MinOdd => met
            .first()
            .map_or((sets ^ 1) % 2, |set| (high | 1).saturating_sub(*set)),
        Shape::Always => 0,
        Shape::Never => 1,
    }
}
