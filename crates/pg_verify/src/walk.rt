//! Counterexamples, by Odd's choices in the game of a product.

ghost use Rattle.std.specs.Prelude.{◌≡◌, ℕ, ◌^◌, ◌<◌, ◌≤◌, ◌∷◌, [], length, Option, Some, IfOk};
ghost use Rattle.pg_arena.specs.declared.player.Player.TheVariants.{Odd};
ghost use Rattle.pg_arena.specs.Games.{IsEdge};
ghost use Rattle.pg_hoa_automaton.specs.Automata.{IsAutomaton};
ghost use Rattle.pg_check.specs.Soundness.{IsSound};
ghost use Rattle.pg_text.specs.Solutions.{IsSolution, winner};
ghost use Rattle.pg_synth.specs.Answers.{IsSynthGame};
ghost use Rattle.pg_synth.specs.AutomatonGames.{StandsFor, place_identifier};
ghost use Rattle.pg_synth.specs.declared.place.Place.TheVariants.{Answer, Arrival};
ghost use Rattle.pg_verify.specs.Products.{HasWholeLetters};
ghost use Rattle.pg_verify.specs.Mirrors.Walks.{IsChosen, IsLasso, Shows};

use crate::verdict::CircuitVerdict;
use indexmap::IndexSet;
use pg_arena::{Game, Vertex};
use pg_hoa_automaton::Automaton;
use pg_synth::SynthGame;
use pg_text::Solution;
use std::alloc::{AllocError, Global};

/// Returns the first successor of a vertex.
fn first_successor(game: &Game, v: Vertex) -> Option<Vertex>
    requires { v < length game.now }
    ensures { (w : ℕ) × (result ≡ Some w) × IsEdge game.now v w }
{
    let _count = game.len();
    game.successors(v).first().copied()
}

/// Returns the identifier of the answer at a state to the first input letter. The identifiers of the answers to the others follow it.
fn first_answer(product: &Automaton, state: u32) -> u32
    requires automaton { IsAutomaton product.now }
    requires whole { HasWholeLetters product.now }
    requires fits { place_identifier product.now (Answer state 0) < 2 ^ 32 }
    ensures { result ≡ place_identifier product.now (Answer state 0) }
{
    let sets = product.sets();
    let width = sets + 1 + (1 << product.propositions());
    1 + state * width + sets + 1
}

/// Returns the input letter that Odd chooses at an arrival, and the vertex to which it leads.
fn chosen_step(
    product: &Automaton,
    synth: &SynthGame,
    solution: &Solution,
    state: u32,
    vertex: Vertex,
) -> (u32, Vertex)
    requires automaton { IsAutomaton product.now }
    requires whole { HasWholeLetters product.now }
    requires game { IsSynthGame product.now synth.now.game synth.now.initial }
    requires solution { IsSolution synth.now.game solution.now }
    requires sound { IsSound synth.now.game solution.now }
    requires here { (set : Option ℕ) × StandsFor product.now synth.now.game vertex (Arrival state set) }
    requires won { winner solution.now vertex ≡ Odd }
    ensures { IsChosen product.now synth.now.game solution.now vertex state result.0 result.1 }
{
    // called only for what its contract says about the game
    let _count = synth.game.len();
    let answer = solution.choice(vertex).unwrap();
    let letter = synth.game.identifier(answer) - first_answer(product, state);
    let next = first_successor(&synth.game, answer).unwrap();
    (letter, next)
}

fn number_of(v: Vertex) -> u32
    ensures { result ≡ v }
{
    v.0
}

/// Returns the set of one number.
fn starting(alloc: Global, number: u32) -> Result<IndexSet<u32>, AllocError>
    ensures { IfOk result (λ set. set.keys ≡ number ∷ []) }
{
    let mut set = IndexSet::new(alloc);
    set.insert(number)?;
    Ok(set)
}

/// Returns the verdict that rejects the lasso of the word: its letters before `place` are the stem, and the others the cycle.
fn lasso_of(alloc: Global, word: &[u32], place: usize) -> Result<CircuitVerdict, AllocError>
    requires { place ≤ length word.now }
    ensures { IfOk result (IsLasso word.now place) }
{
    let (front, back) = word.split_at(place);
    let stem = Vec::from_slice(alloc, front)?;
    let cycle = Vec::from_slice(alloc, back)?;
    Ok(CircuitVerdict::Rejected(stem, cycle))
}

/// Returns the word of Odd's choices as a verdict: the word reaches a letter without a step, or a vertex for the second time.
pub(crate) fn refutation(
    alloc: Global,
    product: &Automaton,
    synth: &SynthGame,
    solution: &Solution,
) -> Result<CircuitVerdict, AllocError>
    requires automaton { IsAutomaton product.now }
    requires whole { HasWholeLetters product.now }
    requires game { IsSynthGame product.now synth.now.game synth.now.initial }
    requires solution { IsSolution synth.now.game solution.now }
    requires sound { IsSound synth.now.game solution.now }
    requires won { winner solution.now synth.now.initial ≡ Odd }
    ensures { IfOk result (Shows product.now) }
{
    let mut visited = starting(alloc, number_of(synth.initial))?;
    let mut word = Vec::new(alloc);
    let mut state = product.start();
    let mut vertex = synth.initial;
    'walk: loop {
        let (letter, next) = chosen_step(product, synth, solution, state, vertex);
        word.push(letter)?;
        let Some((target, _)) = product.next(state, letter) else {
            return Ok(CircuitVerdict::Stuck(word));
        };
        let (place, _) = visited.insert_full(number_of(next))?;
        if place < word.len() {
            return lasso_of(alloc, &word, place);
        }
        state = target;
        vertex = next;
    }
}
