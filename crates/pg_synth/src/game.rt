//! The game of an automaton.

ghost use Rattle.std.specs.Prelude.{IfOk, IfErr};
ghost use Rattle.pg_arena.specs.Games.{HasPrioritiesUpTo};
ghost use Rattle.pg_synth.specs.Answers.{IsSynthGame, Refuses};

use crate::fault::SynthFault;
use crate::layout::layout_of;
use crate::lines::{built, identifiers_of};
use pg_arena::{ArenaFault, Game, MAX_VERTICES, Vertex};
use pg_hoa_automaton::Automaton;
use std::alloc::Global;

/// The game of an automaton, with the vertex where it begins.
#[derive(Drop)]
pub struct SynthGame {
    /// The game. Even wins a play if and only if the automaton accepts the word that traces it.
    pub game: Game,
    /// The vertex for the arrival at the initial state without a set.
    pub initial: Vertex,
}

/// Makes the game of an automaton. Odd chooses input letters and Even output letters. Vertex 0 means that the run has
/// ended. Every other vertex is an arrival at a state, or the answer at a state to an input letter. The game has every
/// arrival that some state and letter lead to, and the answers at every state, reachable or not.
///
/// It fails with `TooLarge` if and only if the game has more than 1,048,576 vertices, or more than 8,388,608 edges,
/// counting parallel edges once. It counts the vertices before it adds the first one, and stops at the first vertex with
/// which there are too many edges. Otherwise it fails only with `OutOfMemory`.
pub fn game_of(alloc: Global, automaton: &Automaton) -> Result<SynthGame, SynthFault>
    ensures game { IfOk result (λ made. IsSynthGame automaton.now made.game made.initial) }
    ensures priorities { IfOk result (λ made. HasPrioritiesUpTo 65535 made.game) }
    ensures fault { IfErr result (Refuses automaton.now) }
{
    // called for what its contract says of the automaton
    let _states = automaton.states();
    let layout = layout_of(alloc, automaton)?;
    let identifiers = identifiers_of(alloc, automaton, &layout)?;
    if identifiers.len() > MAX_VERTICES {
        return Err(SynthFault::TooLarge);
    }
    let game = match built(alloc, automaton, &layout, &identifiers) {
        Ok(game) => game,
        Err(ArenaFault::TooManyEdges) => return Err(SynthFault::TooLarge),
        // these lines can't be refused for another cause than memory
        Err(_) => return Err(SynthFault::OutOfMemory),
    };
    let initial = game
        .vertex_of(1 + automaton.start() * layout.width)
        .unwrap();
    Ok(SynthGame { game, initial })
}
