//! Mealy machines.

ghost use Rattle.std.specs.Prelude.{◌≡◌, ◌^◌, ◌<◌};
ghost use Rattle.pg_synth.specs.Machines.{IsMachine, reply};

use std::marker::Model;

/// A state's reply to an input letter.
#[derive(Clone, Copy)]
pub(crate) struct Reply {
    pub output: u32,
    pub next: u32,
}

/// A Mealy machine. It starts in state 0. In each step it reads an input letter, gives an output letter and goes to the next state. Bit j
/// of an input letter is the environment's j-th proposition, and bit j of an output letter the controller's j-th, counted from 0 in the
/// order of the automaton.
#[derive(Drop)]
pub struct Mealy {
    states: u32,
    inputs: u32,
    outputs: u32,
    replies: Vec<Reply>,
}

impl Model for Mealy {
    ghost use Rattle.pg_synth.specs.Machines.{Machine, IsMachine};
    ghost use Rattle.pg_synth.specs.Mirrors.Drafts.{machine_with};

    ghost Value = { Machine };

    ghost view = { λ m. machine_with m.states m.inputs m.outputs m.replies.items };

    ghost invariant = { λ m. IsMachine (machine_with m.states m.inputs m.outputs m.replies.items) };
}

impl Mealy {
    ghost use Rattle.pg_synth.specs.Mirrors.Drafts.{machine_with};

    pub(crate) fn from_parts(states: u32, inputs: u32, outputs: u32, replies: Vec<Reply>) -> Mealy
        requires { IsMachine (machine_with states inputs outputs replies.items) }
        ensures { result ≡ machine_with states inputs outputs replies.items }
    {
        Mealy {
            states,
            inputs,
            outputs,
            replies,
        }
    }

    /// Returns the number of states, from 1 to 65,535.
    pub fn states(&self) -> u32
        ensures value { result ≡ self.now.states }
        ensures machine { IsMachine self.now }
    {
        self.states
    }

    /// Returns the number of propositions in an input letter.
    pub fn inputs(&self) -> u32
        ensures { result ≡ self.now.inputs }
    {
        self.inputs
    }

    /// Returns the number of propositions in an output letter.
    pub fn outputs(&self) -> u32
        ensures { result ≡ self.now.outputs }
    {
        self.outputs
    }

    /// Returns the output letter that a state gives for an input letter, and the next state. `state` must be below `states()`, and
    /// `input` below 2 to the power of `inputs()`.
    pub fn step(&self, state: u32, input: u32) -> (u32, u32)
        requires state { state < self.now.states }
        requires input { input < 2 ^ self.now.inputs }
        ensures output { result.0 ≡ (reply self.now state input).output }
        ensures next { result.1 ≡ (reply self.now state input).next }
        ensures output_in { result.0 < 2 ^ self.now.outputs }
        ensures next_in { result.1 < self.now.states }
    {
        let first = (state as usize) << self.inputs;
        let reply = self.replies[first + input as usize];
        (reply.output, reply.next)
    }
}
