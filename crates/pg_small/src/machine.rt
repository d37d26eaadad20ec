//! Mealy machines.

use crate::numbers::{Allocated, NONE, at, count, is_marked, power, put};
use crate::steps::{GameStep, Steps};
use std::alloc::Global;
use std::ops::Range;

/// A machine has an output letter and a next state at each point, state by state and input letter by input letter. It begins in state 0.
#[derive(Drop)]
pub struct Machine {
    pub states: u32,
    pub inputs: u32,
    pub outputs: Vec<u32>,
    pub nexts: Vec<u32>,
}

impl Machine {
    /// Returns the machine that begins in `start`. At each point it replies as `reply` says, given the point and the numbers of the states
    /// that were met so far.
    fn met<F: Fn(u32, &[u32]) -> (u32, u32)>(
        alloc: Global,
        inputs: u32,
        states: u32,
        start: u32,
        reply: F,
    ) -> Allocated<Machine>
        requires { F.IsAlwaysCallable reply }
    {
        let mut numbers = vec![in alloc; NONE; states as usize]?;
        put(&mut numbers, start, 0);
        let mut order = vec![in alloc; start; 1]?;
        let mut outputs = Vec::new(alloc);
        let mut nexts = Vec::new(alloc);
        for place in 0..u32::MAX {
            let state = at(&order, place);
            if state == NONE {
                break;
            }
            for point in points(state, inputs) {
                let (output, next) = reply(point, &numbers);
                if at(&numbers, next) == NONE {
                    put(&mut numbers, next, count(order.len()));
                    order.push(next)?;
                }
                outputs.push(output)?;
                nexts.push(at(&numbers, next))?;
            }
        }
        let states = count(order.len());
        Ok(Machine {
            states,
            inputs,
            outputs,
            nexts,
        })
    }

    /// Returns a machine that makes only the moves that are marked at their places: where it can, to the state that it met first.
    pub fn choose(steps: &Steps, moves: &[bool]) -> Allocated<Machine> {
        let target = |point: u32, output: u32| steps.at(steps.place(point, output)).target;
        let (states, start) = (steps.states, steps.start);
        Machine::met(steps.alloc, steps.inputs, states, start, |point, numbers| {
            let output = (0..power(steps.outputs))
                .filter(|it| is_marked(moves, steps.place(point, *it)))
                .min_by_key(|it| at(numbers, target(point, *it)))
                .unwrap_or(0);
            (output, target(point, output))
        })
    }

    /// Returns a machine with an output letter for each state, whatever the input letter.
    pub fn ahead(steps: &Steps, letters: &[u32]) -> Allocated<Machine> {
        let (states, start) = (steps.states, steps.start);
        Machine::met(steps.alloc, steps.inputs, states, start, |point, _| {
            let output = at(letters, point.wrapping_shr(steps.inputs));
            (output, steps.at(steps.place(point, output)).target)
        })
    }

    /// Returns the machine of the states that are reached.
    pub fn reached(&self, alloc: Global) -> Allocated<Machine> {
        Machine::met(
            alloc,
            self.inputs,
            self.states,
            0,
            |point, _| (at(&self.outputs, point), at(&self.nexts, point)),
        )
    }

    /// Returns the machine that goes to `to` in place of `from`.
    pub fn led(&self, alloc: Global, from: u32, to: u32) -> Allocated<Machine> {
        let mut nexts = Vec::new(alloc);
        for next in &self.nexts {
            nexts.push(if *next == from { to } else { *next })?;
        }
        Ok(Machine {
            states: self.states,
            inputs: self.inputs,
            outputs: self.outputs.clone()?,
            nexts,
        })
    }

    /// Returns the step that the automaton makes from `beside` while the machine makes its step at a point.
    pub fn step(&self, steps: &Steps, beside: u32, point: u32) -> GameStep {
        let input = point & power(self.inputs).wrapping_sub(1);
        steps.step(beside, steps.place(input, at(&self.outputs, point)))
    }
}

/// Returns the points of a state.
pub fn points(state: u32, inputs: u32) -> Range<u32> {
    let first = state.wrapping_shl(inputs);
    first..first.saturating_add(power(inputs))
}
