//! The look at a certificate: whether it shows that a product is empty.

ghost use Rattle.std.specs.Prelude.{ℕ, ◌<◌, List, All, IfOk, length};
ghost use Rattle.std.specs.Bool.{OnTrue};
ghost use Rattle.std.specs.declared.vec.Vec.{Vec};
ghost use Rattle.std.specs.declared.alloc.Global.{Global};
ghost use Rattle.pg_ltl.specs.NormalForms.{NormalForm};
ghost use Rattle.pg_ltl.specs.Mirrors.Nodes.{normal_in, normals_of, AreNormalNodes};
ghost use Rattle.pg_means_look.specs.Certificates.{Goes, IsEmptyBy};
ghost use Rattle.pg_means_look.specs.Mirrors.Tables.{truth_at};
ghost use Rattle.pg_means_look.specs.Mirrors.Choices.{part, choice_of, AreForms};
ghost use Rattle.pg_means_look.specs.Mirrors.Views.{automaton_of, certificate_of, GoesEach, GoesAt, StartsAt};
ghost use Rattle.pg_means_look.specs.Mirrors.Pools.{IsPool, AreNumbers};

use crate::automaton::ParityAutomaton;
use crate::certificate::Certificate;
use crate::choice::Choice;
use crate::places::{are_below, is_within};
use crate::pool::{Pool, Pooled, list_at};
use pg_ltl::NormalNode;
use std::alloc::{AllocError, Global};

/// Finds the numbers of nodes. Its answers are checked.
pub trait Finder {
    /// Returns the number of a node with this state whose formulas are among `asks`, a rising list, or `None` if there is none.
    fn find(&self, state: u32, asks: &[usize]) -> Option<usize>;
}

/// Whether some node stands for what the choice asks for, and the edge to it is consistent with the certificate.
fn goes<F: Finder>(
    automaton: &ParityAutomaton,
    certificate: &Certificate,
    finder: &F,
    parity: u32,
    v: usize,
    letter: u32,
    choice: &Choice,
) -> bool
    requires { parity < 2 }
    ensures { OnTrue result ((forms : List NormalForm)
        → Goes (automaton_of automaton.now) (certificate_of forms certificate.now) parity v letter (choice_of forms choice.now)) }
{
    let edge = automaton.edge(certificate.node(v).state, letter);
    let Some(to) = finder.find(edge.target, &choice.asks) else {
        return false;
    };
    let next = certificate.node(to);
    if to >= certificate.nodes.len() || next.state != edge.target {
        return false;
    }
    if !is_within(certificate.set(next.set), &choice.asks) {
        return false;
    }
    certificate.is_fine(parity, edge.priority, &choice.puts, v, to)
}

/// Whether each choice leads from the node `v` to some node.
fn goes_each<F: Finder>(
    automaton: &ParityAutomaton,
    certificate: &Certificate,
    finder: &F,
    parity: u32,
    v: usize,
    letter: u32,
    list: &[Choice],
) -> bool
    requires { parity < 2 }
    ensures { OnTrue result ((forms : List NormalForm)
        → GoesEach (automaton_of automaton.now) (certificate_of forms certificate.now) parity v letter forms list.now) }
{
    for choice in list {
        if !goes(automaton, certificate, finder, parity, v, letter, choice) {
            return false;
        }
    }
    true
}

/// Whether each choice at the letter leads from each node to some node. `numbers` gives for each set the number of its list of choices at
/// this letter.
fn goes_from_each<F: Finder>(
    automaton: &ParityAutomaton,
    certificate: &Certificate,
    finder: &F,
    parity: u32,
    letter: u32,
    lists: &[Pooled],
    numbers: &[usize],
) -> bool
    requires { parity < 2 }
    ensures { OnTrue result ((forms : List NormalForm)
        → AreNumbers (λ p. truth_at automaton.now.truths.items p letter) forms certificate.now.sets.items lists.now numbers.now
        → (v : ℕ) → v < length certificate.now.nodes.items
        → GoesAt (automaton_of automaton.now) (certificate_of forms certificate.now) parity v letter) }
{
    for v in 0..certificate.nodes.len() {
        let set = certificate.node(v).set;
        if set >= numbers.len() {
            return false;
        }
        let list = list_at(lists, numbers[set]);
        if !goes_each(automaton, certificate, finder, parity, v, letter, list) {
            return false;
        }
    }
    true
}

/// Returns for each set of the certificate the number of its list of choices at the letter.
fn numbers_at(
    alloc: Global,
    automaton: &ParityAutomaton,
    nodes: &[NormalNode],
    sets: &[Vec<usize>],
    pool: &mut Pool,
    letter: u32,
) -> Result<Vec<usize>, AllocError>
    requires ordered { AreNormalNodes nodes.now }
    requires below { All (λ (set : Vec ℕ Global). All (λ place. place < length nodes.now) set.items) sets.now }
    ensures { IfOk result (λ numbers. (forms : List NormalForm) → AreForms nodes.now forms → IsPool forms pool.old.lists.items
        → IsPool forms pool.new.lists.items
        × AreNumbers (λ p. truth_at automaton.now.truths.items p letter) forms sets.now pool.new.lists.items numbers.items) }
{
    pool.clear_if_full(alloc);
    let rows = pool.rows(alloc, nodes, &automaton.truths, letter)?;
    pool.numbers(alloc, sets, &rows)
}

/// Whether the places in all sets are below `bound`.
fn are_sets_below(sets: &[Vec<usize>], bound: usize) -> bool
    ensures { OnTrue result (All (λ (set : Vec ℕ Global). All (λ place. place < bound) set.items) sets.now) }
{
    for set in sets {
        if !are_below(set, bound) {
            return false;
        }
    }
    true
}

/// Whether the first node stands for the automaton's start and the formula at the place `root`.
fn starts(automaton: &ParityAutomaton, certificate: &Certificate, root: usize) -> bool
    ensures { OnTrue result ((forms : List NormalForm) → StartsAt (automaton_of automaton.now) (certificate_of forms certificate.now)
        (part forms root)) }
{
    let first = certificate.node(0);
    if certificate.nodes.len() == 0 || first.state != automaton.start {
        return false;
    }
    is_within(certificate.set(first.set), &[root])
}

/// Whether the certificate shows that no word both satisfies the formula at the place `root` of a list and has in the automaton a
/// greatest recurring priority of this parity: 0 for even, 1 for odd. Looks at each letter, each node, and each choice of the node's
/// formulas. `true` is proved; with `false` there may be such a word or not. Fails only if an allocation fails.
pub fn shows_empty<F: Finder>(
    alloc: Global,
    automaton: &ParityAutomaton,
    nodes: &[NormalNode],
    root: usize,
    certificate: &Certificate,
    finder: &F,
    parity: u32,
) -> Result<bool, AllocError>
    requires parity { parity < 2 }
    requires ordered { AreNormalNodes nodes.now }
    ensures { IfOk result (λ yes. OnTrue yes (IsEmptyBy (automaton_of automaton.now) (normal_in nodes.now root) parity
        (certificate_of (normals_of nodes.now) certificate.now))) }
{
    let sets = &certificate.sets;
    if !starts(automaton, certificate, root) || !are_sets_below(sets, nodes.len()) {
        return Ok(false);
    }
    let mut pool = Pool::new(alloc);
    for letter in 0..automaton.letters {
        let numbers = numbers_at(alloc, automaton, nodes, sets, &mut pool, letter)?;
        let lists = &pool.lists;
        if !goes_from_each(
            automaton,
            certificate,
            finder,
            parity,
            letter,
            lists,
            &numbers,
        ) {
            return Ok(false);
        }
    }
    Ok(true)
}
