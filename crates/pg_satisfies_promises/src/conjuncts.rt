//! The conjuncts of a formula, and conjunctions of them.

ghost use Rattle.std.specs.Prelude.{◌≡◌, ◌<◌, All, Contains, length, IfOk, OnOk};
ghost use Rattle.pg_ltl.specs.Mirrors.Nodes.{AreNormalNodes};
ghost use Rattle.pg_satisfies_promises.specs.Mirrors.Growing.{AreWithin, AddsConjunction, Gives, TakesApart};

use crate::growing::{alone, node_at, put};
use crate::propositions::Vocabulary;
use pg_ltl::NormalNode;
use std::alloc::{AllocError, Global};
use std::collections::{BTreeMap, BTreeSet};

/// The most conjuncts that a formula is taken apart to.
const MOST_CONJUNCTS: usize = 256;

/// Takes the part at a place apart: a conjunction's operands wait to be taken apart, the left one first, and another part is found.
fn take_apart(
    nodes: &[NormalNode],
    place: usize,
    waiting: &mut Vec<usize>,
    found: &mut Vec<usize>,
) -> Result<(), AllocError>
    requires ordered { AreNormalNodes nodes.now }
    requires place { place < length nodes.now }
    requires waiting { AreWithin nodes.now waiting.old.items }
    requires found { AreWithin nodes.now found.old.items }
    ensures { OnOk result (TakesApart nodes.now place waiting.old.items waiting.new.items found.old.items found.new.items) }
{
    if let NormalNode::Both(left, right) = node_at(nodes, place) {
        waiting.push(right)?;
        waiting.push(left)?;
        return Ok(());
    }
    found.push(place)?;
    Ok(())
}

/// Returns the conjuncts of the formula at a place, in the order in which they are read, or only the formula itself if they are too many.
pub fn conjuncts_of(
    alloc: Global,
    nodes: &[NormalNode],
    whole: usize,
) -> Result<Vec<usize>, AllocError>
    requires ordered { AreNormalNodes nodes.now }
    requires whole { whole < length nodes.now }
    ensures { IfOk result (λ list. Gives nodes.now whole list.items) }
{
    let mut waiting = alone(alloc, whole)?;
    let mut found = Vec::new(alloc);
    for _step in 0..2 * MOST_CONJUNCTS {
        let Some(place) = waiting.pop() else {
            return Ok(found);
        };
        take_apart(nodes, place, &mut waiting, &mut found)?;
    }
    alone(alloc, whole)
}

/// Appends the conjunction of these parts, and returns its place.
pub fn conjunction(nodes: &mut Vec<NormalNode>, conjuncts: &[usize]) -> Result<usize, AllocError>
    requires ordered { AreNormalNodes nodes.old.items }
    requires conjuncts { AreWithin nodes.old.items conjuncts.now }
    ensures { IfOk result (AddsConjunction nodes.old.items nodes.new.items conjuncts.now) }
{
    if conjuncts.is_empty() {
        return put(nodes, NormalNode::Top);
    }
    let mut whole = conjuncts[0];
    for conjunct in &conjuncts[1..] {
        whole = put(nodes, NormalNode::Both(whole, *conjunct))?;
    }
    Ok(whole)
}

/// Returns for each proposition the conjuncts that speak of it.
fn conjuncts_by_proposition(
    alloc: Global,
    vocabulary: &Vocabulary,
    conjuncts: &[usize],
) -> Result<BTreeMap<u32, Vec<usize>>, AllocError> {
    let mut speakers = BTreeMap::new(alloc);
    for conjunct in conjuncts {
        for proposition in vocabulary.of(*conjunct) {
            let row = speakers.entry(*proposition)?.or_insert(Vec::new(alloc));
            row.push(*conjunct)?;
        }
    }
    Ok(speakers)
}

/// Returns the places of the last conjunct and of those that are linked to it by shared propositions, in at most so many steps.
fn kept_with_last(
    alloc: Global,
    vocabulary: &Vocabulary,
    conjuncts: &[usize],
    steps: usize,
) -> Result<BTreeSet<usize>, AllocError> {
    let mut speakers = conjuncts_by_proposition(alloc, vocabulary, conjuncts)?;
    let mut kept = BTreeSet::new(alloc);
    let mut fresh = Vec::new(alloc);
    if let Some(last) = conjuncts.last() {
        fresh.push(*last)?;
    }
    for _step in 0..=steps {
        let mut linked = Vec::new(alloc);
        for conjunct in &fresh {
            if !kept.insert(*conjunct)? {
                continue;
            }
            for proposition in vocabulary.of(*conjunct) {
                // Each proposition is followed once.
                if let Some(row) = speakers.remove(proposition) {
                    linked.extend_from_slice(&row)?;
                }
            }
        }
        if linked.is_empty() {
            break;
        }
        fresh = linked;
    }
    Ok(kept)
}

/// Returns the last conjunct and those that are linked to it by shared propositions, in at most so many steps, in their order.
pub fn related(
    alloc: Global,
    vocabulary: &Vocabulary,
    conjuncts: &[usize],
    steps: usize,
) -> Result<Vec<usize>, AllocError>
    ensures { IfOk result (λ few. All (Contains conjuncts.now) few.items) }
{
    let kept = kept_with_last(alloc, vocabulary, conjuncts, steps)?;
    let mut few = Vec::new(alloc);
    for conjunct in conjuncts {
        if kept.contains(conjunct) {
            few.push(*conjunct)?;
        }
    }
    Ok(few)
}
