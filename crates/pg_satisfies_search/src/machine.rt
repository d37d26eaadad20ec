//! The states of a circuit, and what it answers in them.

use crate::bits::{LetterCube, ROOM};
use crate::budget::{SearchLimit, SearchResult, SearchStop};
use crate::cone::SystemCone;
use crate::lanes::{has_bit, has_lane};
use crate::numbers::{NONE, count, item, put};
use crate::signals::Signals;
use pg_satisfies_check::CircuitPart;
use pg_search_components::NumberedLists;
use std::alloc::{AllocError, Global};

/// How many words have room for the values of all latches, and the most latches.
pub const STATE_WORDS: usize = 16;

const MOST_LATCHES: usize = 1024;

/// A literal that has to be known, and the bit of an answer that has its value.
#[derive(Clone, Copy)]
pub struct WantedLiterals {
    pub literal: u32,
    bit: u32,
}

/// What an answer says: the outputs, and the number of the next state.
#[derive(Clone, Copy)]
pub struct LetterOutcome {
    pub outputs: LetterCube,
    pub next: u32,
}

/// A circuit with the states that were reached so far.
#[derive(Drop)]
pub struct CircuitMachine {
    pub alloc: Global,
    pub system: CircuitPart,
    /// The places of its latches in the system of which it is a part, and the number of latches there.
    pub places: Vec<u32>,
    pub latches: u32,
    pub signals: Signals,
    /// The place of the gate of each variable, or `NONE`.
    gates: Vec<u32>,
    /// The latches' next literals, and the outputs.
    pub wanted: Vec<WantedLiterals>,
    /// The values of the latches in each state, a bit for each. The first state is the start.
    states: NumberedLists<u64>,
    /// The values of the wanted literals: words for the next state, and then words for the outputs.
    answers: NumberedLists<u64>,
    /// What each answer says.
    outcomes: Vec<LetterOutcome>,
    /// The answers of 64 lanes, one after the other.
    lanes: Vec<u64>,
}

/// Returns the place of the gate of each variable, or `NONE`.
fn gates_of(alloc: Global, system: &CircuitPart, variables: usize) -> Result<Vec<u32>, AllocError> {
    let mut gates = vec![in alloc; NONE; variables]?;
    for (place, gate) in system.gates.iter().enumerate() {
        put(&mut gates, gate.lhs / 2, count(place));
    }
    Ok(gates)
}

impl CircuitMachine {
    /// Makes a machine that has only the state in which all latches are 0.
    pub fn new(
        alloc: Global,
        cone: SystemCone,
        signals: Signals,
    ) -> Result<CircuitMachine, AllocError> {
        let gates = gates_of(alloc, &cone.part, signals.variables())?;
        let mut machine = CircuitMachine {
            alloc,
            system: cone.part,
            places: cone.places,
            latches: cone.latches,
            signals,
            gates,
            wanted: Vec::new(alloc),
            states: NumberedLists::new(alloc),
            answers: NumberedLists::new(alloc),
            outcomes: Vec::new(alloc),
            lanes: Vec::new(alloc),
        };
        let start = vec![in alloc; 0u64; machine.state_words()]?;
        let _ = machine.states.number(&start)?;
        machine.want()?;
        Ok(machine)
    }

    /// Fails if there are too many latches or signals.
    pub fn check(&self) -> SearchResult<()> {
        if self.system.latches.len() > MOST_LATCHES {
            return Err(SearchStop::GivenUp(SearchLimit::Latches));
        }
        if self.signals.len() > ROOM {
            return Err(SearchStop::GivenUp(SearchLimit::Signals));
        }
        Ok(())
    }

    /// Notes which literals are wanted.
    fn want(&mut self) -> Result<(), AllocError> {
        let mut bit = 0u32;
        for latch in &self.system.latches {
            self.wanted.push(WantedLiterals {
                literal: latch.next,
                bit,
            })?;
            bit = bit.wrapping_add(1);
        }
        bit = count(self.state_words()).saturating_mul(64);
        for variable in &self.signals.outputs {
            self.wanted.push(WantedLiterals {
                literal: variable.saturating_mul(2),
                bit,
            })?;
            bit = bit.wrapping_add(1);
        }
        Ok(())
    }

    /// Returns how many words have the values of the latches.
    pub fn state_words(&self) -> usize {
        self.system.latches.len().div_ceil(64)
    }

    /// Returns how many words an answer has.
    fn answer_words(&self) -> usize {
        self.state_words()
            .saturating_add(self.signals.outputs.len().div_ceil(64))
    }

    /// Returns how many states were reached.
    pub fn len(&self) -> u32 {
        self.states.len()
    }

    /// Returns the values of the latches in a state.
    pub fn state(&self, number: u32) -> &[u64] {
        self.states.list(number)
    }

    /// Returns the number of the state with these values, if it was reached.
    pub fn find(&self, words: &[u64]) -> Option<u32> {
        self.states.find(words)
    }

    /// Makes room for the answers of 64 lanes.
    pub fn clear(&mut self) -> Result<(), AllocError> {
        let room = self.answer_words().saturating_mul(64);
        self.lanes.clear();
        self.lanes.resize(room, 0)
    }

    /// Notes the values of a wanted literal in 64 lanes.
    pub fn note(&mut self, wanted: WantedLiterals, word: u64) {
        let words = count(self.answer_words());
        let mut place = wanted.bit / 64;
        let bit = 1u64.wrapping_shl(wanted.bit);
        for lane in 0..64u32 {
            if has_lane(word, lane) {
                let old = item(&self.lanes, place, 0);
                put(&mut self.lanes, place, old | bit);
            }
            place = place.wrapping_add(words);
        }
    }

    /// Returns the number of the answer in a lane.
    pub fn answer(&mut self, lane: u32) -> Result<u32, AllocError> {
        let words = self.answer_words();
        let from = words.saturating_mul(lane as usize).min(self.lanes.len());
        let to = from.saturating_add(words).min(self.lanes.len());
        let number = self.answers.number(&self.lanes[from..to])?;
        if number as usize >= self.outcomes.len() {
            let middle = from.saturating_add(self.state_words()).min(to);
            let state = &self.lanes[from..middle];
            let next = self.states.number(state)?;
            let outputs = self.outputs(&self.lanes[middle..to]);
            self.outcomes.push(LetterOutcome { outputs, next })?;
        }
        Ok(number)
    }

    /// Returns what the words of an answer say of the outputs.
    fn outputs(&self, words: &[u64]) -> LetterCube {
        let mut outputs = LetterCube::FREE;
        let mut signal = count(self.signals.inputs.len());
        for bit in 0..count(self.signals.outputs.len()) {
            outputs = outputs.and(LetterCube::of(signal, has_bit(words, bit)));
            signal = signal.wrapping_add(1);
        }
        outputs
    }

    /// Returns what an answer says.
    pub fn outcome(&self, answer: u32) -> LetterOutcome {
        let other = LetterOutcome {
            outputs: LetterCube::FREE,
            next: 0,
        };
        item(&self.outcomes, answer, other)
    }

    /// Returns the variable of an input that isn't known and on which a wanted literal depends, or `None` if all these are known.
    pub fn missing<K: Fn(u32) -> bool>(&self, is_unknown: K) -> Option<u32>
        requires { K.IsAlwaysCallable is_unknown }
    {
        for wanted in &self.wanted {
            if is_unknown(wanted.literal) {
                return Some(self.source(wanted.literal, is_unknown));
            }
        }
        None
    }

    /// Goes down from a literal that isn't known to the variable of an input that isn't known.
    fn source<K: Fn(u32) -> bool>(&self, literal: u32, is_unknown: K) -> u32
        requires { K.IsAlwaysCallable is_unknown }
    {
        let mut variable = literal / 2;
        for _ in 0..self.system.gates.len() {
            let place = item(&self.gates, variable, NONE);
            let Some(gate) = self.system.gates.get(place as usize) else {
                break;
            };
            let below = if is_unknown(gate.rhs0) {
                gate.rhs0
            } else {
                gate.rhs1
            };
            variable = below / 2;
        }
        variable
    }
}
