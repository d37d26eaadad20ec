//! The look at a lasso: whether it is a word that satisfies a formula and that an automaton accepts, or rejects.

ghost use Rattle.std.specs.Prelude.{◌≡◌, ◌↔◌, ◌<◌, ◌≤◌, ℕ, All, true, false, IfOk, IfSome, IsTrue, length};
ghost use Rattle.std.specs.Bool.{OnTrue};
ghost use Rattle.pg_ltl.specs.Mirrors.Nodes.{normal_in, AreNormalNodes};
ghost use Rattle.pg_means_look.specs.Automata.{IsAccepted};
ghost use Rattle.pg_means_look.specs.Lassos.{lasso};
ghost use Rattle.pg_means_look.specs.Mirrors.Views.{automaton_of};
ghost use Rattle.pg_means_look.specs.Mirrors.Places.{IsRunOn, IsGreatestOn, IsShown};

use crate::automaton::ParityAutomaton;
use crate::values::holds_on;
use pg_ltl::NormalNode;
use std::alloc::{AllocError, Global};

/// Returns the states of the run on the letters, the one after the last letter included.
fn states_on(
    alloc: Global,
    automaton: &ParityAutomaton,
    letters: &[u32],
) -> Result<Vec<u32>, AllocError>
    ensures { IfOk result (λ states. IsRunOn (automaton_of automaton.now) letters.now states.items) }
{
    let mut states = Vec::new(alloc);
    let mut state = automaton.start;
    states.push(state)?;
    for letter in letters {
        state = automaton.edge(state, *letter).target;
        states.push(state)?;
    }
    Ok(states)
}

/// Returns the greatest priority at the places from `back` on.
fn greatest_on(automaton: &ParityAutomaton, letters: &[u32], states: &[u32], back: usize) -> u32
    requires back { back < length letters.now }
    requires run { IsRunOn (automaton_of automaton.now) letters.now states.now }
    ensures { IsGreatestOn (automaton_of automaton.now) letters.now states.now back result }
{
    let mut most = automaton.edge(states[back], letters[back]).priority;
    for i in back + 1..letters.len() {
        let priority = automaton.edge(states[i], letters[i]).priority;
        if priority > most {
            most = priority;
        }
    }
    most
}

/// Whether the automaton accepts the lasso, or `None` if its run doesn't return with the lasso to the state at `back`.
fn accepts(
    alloc: Global,
    automaton: &ParityAutomaton,
    letters: &[u32],
    back: usize,
) -> Result<Option<bool>, AllocError>
    requires { back < length letters.now }
    ensures { IfOk result (λ found. IfSome found (λ yes. IsTrue yes ↔ IsAccepted (automaton_of automaton.now) (lasso letters.now back))) }
{
    let states = states_on(alloc, automaton, letters)?;
    if states[letters.len()] != states[back] {
        return Ok(None);
    }
    Ok(Some(greatest_on(automaton, letters, &states, back) % 2 == 0))
}

/// Whether all letters are below `bound`.
fn are_below(letters: &[u32], bound: u32) -> bool
    ensures { OnTrue result (All (λ letter. letter < bound) letters.now) }
{
    for letter in letters {
        if *letter >= bound {
            return false;
        }
    }
    true
}

/// Whether the answer is yes for the parity 0, or no for the parity 1.
fn is_of(yes: bool, parity: u32) -> bool
    ensures even { OnTrue result (parity ≡ 0 → yes ≡ true) }
    ensures odd { OnTrue result (parity ≡ 1 → yes ≡ false) }
{
    match parity {
        0 => yes,
        1 => !yes,
        _ => true,
    }
}

/// Whether the lasso of these letters, which repeats those from `back` on for ever, satisfies the formula at the place `root` of a list,
/// and the automaton accepts it, for the parity 0, or rejects it, for the parity 1. `true` is proved; `false` proves nothing. Fails only
/// if an allocation fails.
pub fn is_shown(
    alloc: Global,
    automaton: &ParityAutomaton,
    nodes: &[NormalNode],
    root: usize,
    letters: &[u32],
    back: usize,
    parity: u32,
) -> Result<bool, AllocError>
    requires { AreNormalNodes nodes.now }
    ensures { IfOk result (λ yes. OnTrue yes (IsShown (automaton_of automaton.now) (normal_in nodes.now root) parity letters.now back)) }
{
    if back >= letters.len() || !are_below(letters, automaton.letters) {
        return Ok(false);
    }
    let Some(yes) = accepts(alloc, automaton, letters, back)? else {
        return Ok(false);
    };
    if !is_of(yes, parity) {
        return Ok(false);
    }
    holds_on(alloc, nodes, root, &automaton.truths, letters, back)
}
