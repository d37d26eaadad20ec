//! Splits a formula into promises, and finds the tries of each.

ghost use Rattle.std.specs.Prelude.{◌≡◌, ◌<◌, ℕ, All, length, IfOk, OnOk};
ghost use Rattle.std.specs.declared.vec.Vec.{Vec};
ghost use Rattle.std.specs.declared.alloc.Global.{Global};
ghost use Rattle.pg_ltl.specs.Mirrors.Nodes.{AreNormalNodes};
ghost use Rattle.pg_satisfies_promises.specs.Mirrors.Promises.{KeepsForms, Splits, IsImplied};
ghost use Rattle.pg_satisfies_promises.specs.Mirrors.Growing.{AreWithin, AddsTries, AddsGiven};

use crate::alternatives::alternatives_of;
use crate::conjuncts::{conjunction, conjuncts_of, related};
use crate::growing::has_room;
use crate::propositions::Vocabulary;
use pg_ltl::{NormalForm, NormalNode};
use std::alloc::{AllocError, Global};

/// The most nodes that are appended for alternatives, and the most that are then appended for tries.
const MOST_NODES: usize = 16_384;

/// A formula that is split into promises. Wherever the formula holds, all tries of some promise hold. So to refute the formula it is enough
/// to refute one try of each promise. And wherever the last try of a promise holds, the formula holds.
#[derive(Debug, Drop)]
pub struct Promises {
    /// The parts of the formula, and behind them those of the tries.
    pub nodes: Vec<NormalNode>,
    /// For each promise the places of its tries: at least one, from little to all that the promise says.
    pub tries: Vec<Vec<usize>>,
    ghost ordered: { AreNormalNodes nodes.items },
    ghost within: { All (λ (row : Vec ℕ Global). All (λ place. place < length nodes.items) row.items) tries.items },
}

/// Appends the conjunction of a few conjuncts and adds it to the tries, if they are fewer than `all` conjuncts and there is room for it.
fn add_try(
    nodes: &mut Vec<NormalNode>,
    tries: &mut Vec<usize>,
    few: &[usize],
    all: usize,
    limit: usize,
) -> Result<(), AllocError>
    requires ordered { AreNormalNodes nodes.old.items }
    requires few { AreWithin nodes.old.items few.now }
    requires tries { AreWithin nodes.old.items tries.old.items }
    ensures { OnOk result (AddsTries nodes.old.items nodes.new.items few.now tries.old.items tries.new.items) }
{
    if few.len() >= all || !has_room(nodes, few.len(), limit) {
        return Ok(());
    }
    let place = conjunction(nodes, few)?;
    tries.push(place)?;
    Ok(())
}

/// Returns the tries of an alternative. Its last conjunct, mostly a guarantee that doesn't hold, is tried with those that share
/// propositions with it, then with all that are linked to it by shared propositions, and at last with all.
fn tries_of(
    alloc: Global,
    nodes: &mut Vec<NormalNode>,
    vocabulary: &mut Vocabulary,
    alternative: usize,
    limit: usize,
) -> Result<Vec<usize>, AllocError>
    requires ordered { AreNormalNodes nodes.old.items }
    requires alternative { alternative < length nodes.old.items }
    ensures { IfOk result (λ tries. AddsGiven nodes.old.items nodes.new.items alternative tries.items) }
{
    let conjuncts = conjuncts_of(alloc, nodes, alternative)?;
    vocabulary.learn(alloc, nodes, &conjuncts)?;
    let near = related(alloc, vocabulary, &conjuncts, 1)?;
    let linked = related(alloc, vocabulary, &conjuncts, conjuncts.len())?;
    let mut tries = Vec::new(alloc);
    add_try(nodes, &mut tries, &near, linked.len(), limit)?;
    add_try(nodes, &mut tries, &linked, conjuncts.len(), limit)?;
    tries.push(alternative)?;
    Ok(tries)
}

/// Splits a formula in negation normal form into promises: where the formula is a disjunction, also behind conjunctions, Nexts and the
/// right sides of Untils, each side is a promise of its own. What it appends is bounded, so a large formula may stay unsplit in places.
/// Fails only if an allocation fails.
pub fn promises_of(alloc: Global, form: NormalForm) -> Result<Promises, AllocError>
    ensures keeps { IfOk result (λ found. KeepsForms form.nodes.items found.nodes.items) }
    ensures splits { IfOk result (λ found. Splits found.nodes.items form.root found.tries.items) }
    ensures implied { IfOk result (λ found. IsImplied found.nodes.items form.root found.tries.items) }
{
    let root = form.root;
    let mut nodes = form.nodes;
    let limit = nodes.len().saturating_add(MOST_NODES);
    let alternatives = alternatives_of(alloc, &mut nodes, root, limit)?;
    let limit = nodes.len().saturating_add(MOST_NODES);
    let mut vocabulary = Vocabulary::new(alloc);
    let mut promises = Vec::new(alloc);
    for alternative in &alternatives {
        let tries = tries_of(alloc, &mut nodes, &mut vocabulary, *alternative, limit)?;
        promises.push(tries)?;
    }
    Ok(Promises {
        nodes,
        tries: promises,
    })
}
