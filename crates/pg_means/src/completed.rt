//! Turns an automaton into one in which every letter leads on from every state.

ghost use Rattle.std.specs.Prelude.{◌≡◌, ◌==◌, ◌<◌, ◌≤◌, ◌^◌, ℕ, ◌+◌, ◌*◌, false, All, IfOk, length, slice_index_or};
ghost use Rattle.std.specs.Int.{bit_at};
ghost use Rattle.pg_hoa_automaton.specs.Automata.{letters};
ghost use Rattle.pg_means_look.specs.Mirrors.Tables.{truth_at};
ghost use Rattle.pg_means_look.specs.Mirrors.Views.{automaton_of};
ghost use Rattle.pg_means.specs.Priorities.{IsCompleted};
ghost use Rattle.pg_means.specs.Verdicts.{holds_at};
ghost use Rattle.pg_means.specs.Mirrors.Tables.{step_of, IsEdgeOf, AreEdges};

use crate::fault::MeansFault;
use pg_hoa_automaton::Automaton;
use pg_means_look::{ParityAutomaton, ParityEdge};
use pg_synth::priority_of;
use std::alloc::{AllocError, Global};

/// Returns the edge of a state at a letter. Where the automaton has none, and from the extra state after the last one, it leads to the
/// extra state with priority 1.
fn edge_of(automaton: &Automaton, state: u32, letter: u32) -> ParityEdge
    requires { letter < letters automaton.now }
    ensures { IsEdgeOf automaton.now (step_of automaton.now state letter) result }
{
    let states = automaton.states();
    let end = ParityEdge {
        target: states,
        priority: 1,
    };
    if state >= states {
        return end;
    }
    match automaton.next(state, letter) {
        None => end,
        Some((target, met)) => ParityEdge {
            target,
            priority: priority_of(automaton.shape(), automaton.sets(), met),
        },
    }
}

/// Returns the edges of all states and of the extra state after the last one, at `width` letters each. The edge at a letter is the one at
/// the part of the letter that has the automaton's own propositions.
fn edges_of(alloc: Global, automaton: &Automaton, width: u32) -> Result<Vec<ParityEdge>, AllocError>
    requires some { 0 < width }
    requires few { (automaton.now.states + 1) * width < 2 ^ 32 }
    ensures long { IfOk result (λ edges. length edges.items ≡ (automaton.now.states + 1) * width) }
    ensures edges { IfOk result (λ edges. AreEdges automaton.now width edges.items) }
{
    let own = letters_of(automaton);
    let count = (automaton.states() + 1) * width;
    let mut edges = Vec::new(alloc);
    for place in 0..count {
        edges.push(edge_of(automaton, place / width, place % width % own))?;
    }
    Ok(edges)
}

/// Returns for each of `width` letters whether the proposition, which is a bit of the letter, holds there.
fn truths_of(alloc: Global, width: u32, proposition: u32) -> Result<Vec<bool>, AllocError>
    requires { proposition < 32 }
    ensures long { IfOk result (λ row. length row.items ≡ width) }
    ensures bits { IfOk result (λ row. (letter : ℕ) → letter < width
        → slice_index_or row.items letter false ≡ (bit_at letter proposition == 1)) }
{
    let mut row = Vec::new(alloc);
    for letter in 0..width {
        row.push((letter >> proposition) % 2 == 1)?;
    }
    Ok(row)
}

/// Returns the number of letters over the given number of propositions.
fn width_of(propositions: u32) -> u32
    requires { propositions ≤ 16 }
    ensures value { result ≡ 2 ^ propositions }
    ensures some { 0 < result }
    ensures few { result ≤ 65536 }
{
    1 << propositions
}

/// Returns the number of letters of the automaton.
fn letters_of(automaton: &Automaton) -> u32
    ensures value { result ≡ letters automaton.now }
    ensures some { 0 < result }
{
    // called for what its contract says of the automaton
    let _states = automaton.states();
    1 << automaton.propositions()
}

/// The most states times letters.
const MOST_STEPS: u64 = 16_777_216;

/// Returns the automaton over the given number of propositions, the first of which are its own, with an edge from every state at every
/// letter. `places` has for each proposition of a formula its place among all propositions. Fails with `TooLarge` if the states times
/// letters exceed `MOST_STEPS`.
pub(crate) fn completed(
    alloc: Global,
    automaton: &Automaton,
    propositions: u32,
    places: &[u32],
) -> Result<ParityAutomaton, MeansFault>
    requires few { propositions ≤ 16 }
    requires places { All (λ place. place < propositions) places.now }
    ensures completed { IfOk result (λ found. IsCompleted automaton.now propositions (automaton_of found)) }
    ensures truths { IfOk result (λ found. (letter p : ℕ) → letter < 2 ^ propositions
        → truth_at found.truths.items p letter ≡ holds_at places.now letter p) }
{
    let states = automaton.states();
    let width = width_of(propositions);
    if states as u64 * width as u64 > MOST_STEPS {
        return Err(MeansFault::TooLarge);
    }
    let edges = edges_of(alloc, automaton, width)?;
    let mut truths = Vec::new(alloc);
    for place in places {
        truths.push(truths_of(alloc, width, *place)?)?;
    }
    Ok(ParityAutomaton {
        letters: width,
        start: automaton.start(),
        edges,
        truths,
    })
}
