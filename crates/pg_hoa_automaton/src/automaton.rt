//! Automata.

ghost use Rattle.std.specs.Prelude.{◌≡◌, ◌↔◌, ℕ, ◌<◌, Bool, IsTrue, length, get_or, option_map};
ghost use Rattle.pg_hoa_automaton.specs.Automata.{IsAutomaton, next, step};
ghost use Rattle.pg_hoa_automaton.specs.Formulas.{Formula, holds};
ghost use Rattle.pg_hoa_automaton.specs.Shapes.{FitsShape, Accepts};

use crate::shape::Shape;
use crate::table::Table;
use std::marker::Model;

/// A deterministic parity automaton. With p propositions its letters are the numbers below 2 to the power p, and bit
/// `a` of a letter is proposition `a`. States and sets are numbered from 0. The controller sets some of the
/// propositions, and the environment the others.
#[derive(Debug, Drop)]
pub struct Automaton {
    start: u32,
    names: Vec<Vec<u8>>,
    controllable: Vec<bool>,
    sets: u32,
    shape: Shape,
    table: Table,
}

impl Model for Automaton {
    ghost use Rattle.pg_hoa_automaton.specs.Automata.{Automaton, IsAutomaton};
    ghost use Rattle.pg_hoa_automaton.specs.Mirrors.Views.{viewed};

    ghost Value = { Automaton };

    ghost view = { λ a. viewed a.start a.names.items a.controllable.items a.sets a.shape a.table };

    ghost invariant = { λ a. IsAutomaton (viewed a.start a.names.items a.controllable.items a.sets a.shape a.table) };
}

impl Automaton {
    ghost use Rattle.pg_hoa_automaton.specs.Mirrors.Views.{viewed};

    /// Makes an automaton of these parts, which must fit together.
    pub fn from_parts(
        start: u32,
        names: Vec<Vec<u8>>,
        controllable: Vec<bool>,
        sets: u32,
        shape: Shape,
        table: Table,
    ) -> Automaton
        requires { IsAutomaton (viewed start names.items controllable.items sets shape table) }
        ensures { result ≡ viewed start names.items controllable.items sets shape table }
    {
        Automaton {
            start,
            names,
            controllable,
            sets,
            shape,
            table,
        }
    }

    /// Returns the number of states, from 1 to 65,535.
    pub fn states(&self) -> u32
        ensures value { result ≡ self.now.states }
        ensures automaton { IsAutomaton self.now }
    {
        self.table.states()
    }

    /// Returns the state in which runs start.
    pub fn start(&self) -> u32
        ensures { result ≡ self.now.start }
    {
        self.start
    }

    /// Returns the number of propositions, at most 16.
    pub fn propositions(&self) -> u32
        ensures { result ≡ length self.now.propositions }
    {
        self.names.len() as u32
    }

    /// Returns the name of proposition `a`. It has at least one byte, and no byte below 32 and no byte 127.
    pub fn proposition(&self, a: u32) -> &[u8]
        requires { a < length self.now.propositions }
        ensures { result.now ≡ get_or self.now.propositions a result.now }
    {
        &self.names[a as usize]
    }

    /// Whether the controller sets proposition `a`.
    pub fn controllable(&self, a: u32) -> bool
        requires { a < length self.now.propositions }
        ensures { result ≡ get_or self.now.controllable a result }
    {
        self.controllable[a as usize]
    }

    /// Returns the number of acceptance sets, at most 4,096.
    pub fn sets(&self) -> u32
        ensures { result ≡ self.now.sets }
    {
        self.sets
    }

    /// Returns the state to which the letter leads from the given state, and the sets that the step meets, in rising
    /// order: those of the state and those of the first matching edge in the text. None if no edge matches, or if there
    /// is no such state or letter.
    pub fn next(&self, state: u32, letter: u32) -> Option<(u32, &[u32])>
        ensures { option_map (λ x. step x.0 x.1.now) result ≡ next self.now state letter }
    {
        self.table.next(state, letter)
    }

    /// Returns the shape of the acceptance condition. A condition of this shape, such as the one in the text, holds for
    /// a collection of sets if and only if the least or greatest set in it has the parity of the shape, or the
    /// collection is empty and the shape accepts that.
    pub fn shape(&self) -> Shape
        ensures value { result ≡ self.now.shape }
        ensures says { (condition : Formula) (recurs : ℕ → Bool) → FitsShape condition self.now.sets result
            → IsTrue (holds condition recurs) ↔ Accepts result self.now.sets recurs }
    {
        self.shape
    }
}
