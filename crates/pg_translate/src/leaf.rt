//! Automata of temporal formulas, each over the propositions of its own formula.

use crate::automaton::{MarkedAutomaton, MarkedEdge};
use crate::bdd::{ALWAYS, NEVER};
use crate::fault::Attempt;
use crate::minimising::minimised;
use crate::numbers::{NONE, at, count, gathered, item, power};

/// An automaton for a formula.
#[derive(Drop)]
pub struct Leaf {
    /// The propositions of the formula, as bits.
    pub propositions: u32,
    automaton: MarkedAutomaton,
    /// For each state, the diagram of what it accepts if it is a sink: all or nothing; else `NONE`.
    pub decided: Vec<u32>,
    /// The priorities, in ascending order. Each except the least is a colour in the product of all leaves.
    priorities: Vec<u32>,
    /// The first of these colours.
    first_colour: u32,
}

impl Leaf {
    pub fn new(automaton: &MarkedAutomaton, propositions: u32) -> Attempt<Leaf> {
        let automaton = minimised(automaton)?;
        let mut decided = Vec::new(automaton.alloc);
        for state in 0..automaton.len() {
            decided.push(if automaton.is_sink(state, true) {
                ALWAYS
            } else if automaton.is_sink(state, false) {
                NEVER
            } else {
                NONE
            })?;
        }
        let mut priorities = Vec::new(automaton.alloc);
        for edge in &automaton.edges {
            priorities.push(edge.mark)?;
        }
        priorities.sort_unstable();
        priorities.dedup();
        Ok(Leaf {
            propositions,
            automaton,
            decided,
            priorities,
            first_colour: 0,
        })
    }

    /// Returns the key of a state: states with the same key accept the same words.
    pub fn key(&self, state: u32) -> u32 {
        at(&self.automaton.keys, state)
    }

    /// Gives the leaf its colours, from `first` on. Returns the first colour that is still free.
    pub fn colour(&mut self, first: u32) -> u32 {
        self.first_colour = first;
        first
            .saturating_add(count(self.priorities.len()))
            .saturating_sub(1)
    }

    /// Returns the edge of a state at a letter over all propositions.
    pub fn step(&self, state: u32, letter: u32) -> MarkedEdge {
        self.automaton
            .step(state, gathered(letter, self.propositions))
    }

    /// Returns the colours of the leaf, as bits.
    pub fn colours(&self) -> u32 {
        let many = count(self.priorities.len()).saturating_sub(1);
        let all = if many >= 32 {
            u32::MAX
        } else {
            power(many).wrapping_sub(1)
        };
        all.wrapping_shl(self.first_colour)
    }

    /// Returns the colour of a priority as a bit, or 0 for the least priority.
    pub fn colour_of(&self, priority: u32) -> u32 {
        match self.priorities.binary_search(&priority) {
            Ok(rank) if rank > 0 => {
                power(
                    self.first_colour
                        .saturating_add(count(rank).wrapping_sub(1)),
                )
            }
            _ => 0,
        }
    }

    /// Whether a run is accepted if these are the colours that recur on it.
    pub fn accepts(&self, colours: u32) -> bool {
        let own = (colours & self.colours()).wrapping_shr(self.first_colour);
        let rank = 32u32.saturating_sub(own.leading_zeros());
        item(&self.priorities, rank, 1) % 2 == 0
    }
}
