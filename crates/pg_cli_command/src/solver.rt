//! Methods of solving.

ghost use Rattle.std.specs.Prelude.{List, IfOk};
ghost use Rattle.pg_arena.specs.Games.{GameVertex, HasPrioritiesUpTo, dual};
ghost use Rattle.pg_map.specs.Maps.{MapValue};
ghost use Rattle.pg_cli_command.specs.Measuring.{MapKind, IsClosedMapOf};

use pg_aiger::Gate;
use pg_arena::Game;
use pg_hoa::Automaton;
use pg_ltl::Formula;
use pg_map::Measures;
use pg_solver::Maps;
use std::alloc::{AllocError, Global};

/// A proposed circuit: the next literals of the latches, the literals of the outputs, and the gates. Variables are numbered from 1: first
/// the inputs, then the latches, then the gates. Each gate is over literals of smaller variables, and names the greater literal first. A
/// literal is twice its variable, plus one if it is negated.
#[derive(Drop)]
pub struct ProposedCircuit {
    pub nexts: Vec<u32>,
    pub outputs: Vec<u32>,
    pub gates: Vec<Gate>,
}

/// Why no automaton was found for a formula.
#[derive(Clone, Copy, Debug, PartialEq, Eq)]
pub enum Untranslated {
    /// Memory ran out.
    OutOfMemory,
    /// The automaton has more states or letters than the search allows.
    TooManyStates,
    /// The search needs more steps than its limit allows.
    TooManySteps,
}

/// A method of solving, which finds maps of games.
pub trait Solver {
    /// How its maps store their measures.
    type Map: Measures + Drop;

    /// The kind of the maps that it finds. They are closed.
    ghost finds: { Self → MapKind };

    /// The kind of the map that `measure` finds, in addition to `finds`.
    ghost measures: { Self → MapKind };

    /// Finds a map of a game. Fails only if memory runs out.
    fn measure(&mut self, alloc: Global, game: &Game) -> Result<Self::Map, AllocError>
        ensures found { IfOk result (λ map. finds self.old game.now (Self.Map.map map)) }
        ensures measured { IfOk result (λ map. measures self.old game.now (Self.Map.map map)) };

    /// Finds a map of a game and a map of its dual. The priorities of the game must be at most 65535. Fails only if memory runs out.
    fn solve(&mut self, alloc: Global, game: &Game) -> Result<Maps<Self::Map>, AllocError>
        requires priorities { HasPrioritiesUpTo 65535 game.now }
        ensures of_game { IfOk result (λ maps. finds self.old game.now (Self.Map.map maps.of_game)) }
        ensures of_dual { IfOk result (λ maps. finds self.old (dual game.now) (Self.Map.map maps.of_dual)) };

    /// Proposes small circuits, the smallest first; there may be none. The automaton should accept each of their runs, but nothing is
    /// believed of them. Fails only if memory runs out.
    fn propose(
        &self,
        alloc: Global,
        automaton: &Automaton,
    ) -> Result<Vec<ProposedCircuit>, AllocError>;

    /// Returns the text of an automaton in HOA v1. The automaton should accept exactly the words that satisfy the formula, but nothing is
    /// believed of it. `names` has the names of the formula's propositions.
    fn translate(
        &self,
        alloc: Global,
        formula: &Formula,
        names: &[Vec<u8>],
    ) -> Result<Vec<u8>, Untranslated>;

    /// Proposes circuits that play the environment, the smallest first; there may be none. The automaton is the counterpart of one that has
    /// no controller. It should accept each run of the circuits, and no output should depend on an input of the same step, but nothing is
    /// believed of them. Fails only if memory runs out.
    fn propose_environment(
        &self,
        alloc: Global,
        automaton: &Automaton,
    ) -> Result<Vec<ProposedCircuit>, AllocError>;

    ghost closed: { (solver : Self) (game : List GameVertex) (map : MapValue) → finds solver game map
        → IsClosedMapOf game map };
}
