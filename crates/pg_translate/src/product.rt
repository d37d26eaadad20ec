//! The product of what is progressed and all leaves, with the colours of the leaves.

use crate::automaton::{Classes, MarkedEdge};
use crate::bdd::NEVER;
use crate::fault::{Attempt, TranslateFault};
use crate::numbers::{
    MOST_EDGES, NONE, NumberMap, between, count, gathered, item, power, put, spread,
};
use crate::skeleton::Skeleton;
use pg_search_components::NumberedLists;
use std::alloc::Global;

/// The product. Its edges are marked with the colours that are met.
#[derive(Drop)]
pub struct ColouredProduct {
    /// For each state, the diagram of what is asked and the state of each leaf, or `NONE` for a leaf that no longer matters.
    pub states: NumberedLists<u32>,
    pub classes: Classes,
    /// The edge of each class, state by state.
    edges: Vec<MarkedEdge>,
}

/// The states that were met, and the edges of those that were looked at, letter by letter over the propositions of each state's mask.
#[derive(Drop)]
struct Exploring {
    states: NumberedLists<u32>,
    masks: Vec<u32>,
    edges: Vec<MarkedEdge>,
    /// Where the edges of each state end.
    ends: Vec<u32>,
}

impl ColouredProduct {
    /// Returns the edges of a state, by class.
    pub fn row(&self, state: u32) -> &[MarkedEdge] {
        let from = state.saturating_mul(self.classes.many);
        between(&self.edges, from, from.saturating_add(self.classes.many))
    }

    /// Returns the diagram of what is asked in a state.
    pub fn asked(&self, state: u32) -> u32 {
        self.states.list(state).first().copied().unwrap_or(NEVER)
    }
}

/// What the diagram of a state says of the leaves: which of them it looks at, by their places in the state's list, and the diagrams of those
/// that are decided.
#[derive(Drop)]
struct LeafLook {
    matters: Vec<bool>,
    known: NumberMap,
    is_clear: bool,
}

impl LeafLook {
    /// Leaves out the states of leaves that don't matter.
    fn forget(&self, list: &mut [u32]) {
        for (state, matters) in list.iter_mut().zip(&self.matters).skip(1) {
            if !*matters {
                *state = NONE;
            }
        }
    }
}

impl Skeleton {
    /// Looks at the leaves of a state's diagram.
    fn look(&mut self, list: &[u32]) -> Attempt<LeafLook> {
        let mut look = LeafLook {
            matters: vec![in self.alloc; false; list.len()]?,
            known: NumberMap::new(self.alloc),
            is_clear: true,
        };
        let support = self.progress.bdd.support(item(list, 0, NEVER), NONE)?;
        for variable in &support {
            let number = self.leaf_of(*variable);
            let Some(leaf) = self.leaves.get(number as usize) else {
                continue;
            };
            put(&mut look.matters, number.wrapping_add(1), true);
            let state = item(list, number.wrapping_add(1), NONE);
            let decided = item(&leaf.decided, state, NONE);
            if decided != NONE {
                look.known.set(*variable, decided)?;
                look.is_clear = false;
            }
        }
        Ok(look)
    }

    /// Returns a diagram with leaves replaced by the diagrams that are known.
    fn decided(&mut self, f: u32, known: &NumberMap) -> Attempt<u32> {
        let mut noted = NumberMap::new(self.alloc);
        self.progress.bdd.replaced(f, known, &mut noted)
    }

    /// Makes a list the state of the product for what is asked and the states of the leaves. Leaves that are decided are put into the
    /// diagram, and leaves that it doesn't look at don't matter.
    fn settle(&mut self, list: &mut [u32]) -> Attempt<()> {
        for _ in 0..list.len() {
            let look = self.look(list)?;
            if look.is_clear {
                look.forget(list);
                break;
            }
            let left = self.decided(item(list, 0, NEVER), &look.known)?;
            put(list, 0, left);
        }
        Ok(())
    }

    /// Replaces the leaves' states in the list by their next states at a letter. Returns the colours that are met.
    fn lead(&self, list: &mut [u32], letter: u32) -> u32 {
        let mut met = 0;
        for (state, leaf) in list.iter_mut().skip(1).zip(&self.leaves) {
            if *state != NONE {
                let edge = leaf.step(*state, letter);
                *state = edge.target;
                met |= leaf.colour_of(edge.mark);
            }
        }
        met
    }

    /// Returns the propositions on which the edges of a state depend; `next` is what is asked of a letter and the rest after it.
    fn mask(&mut self, list: &[u32], next: u32) -> Attempt<u32> {
        let mut mask = 0;
        for proposition in &self.progress.bdd.support(next, self.progress.propositions)? {
            mask |= power(*proposition);
        }
        for (state, leaf) in list.iter().skip(1).zip(&self.leaves) {
            if *state != NONE {
                mask |= leaf.propositions;
            }
        }
        Ok(mask)
    }

    /// Settles a list, and returns the number of its state, which is added if it is new.
    fn target(&mut self, exploring: &mut Exploring, list: &mut [u32]) -> Attempt<u32> {
        self.settle(list)?;
        Ok(exploring.states.number(list)?)
    }

    /// Appends the edges of a state over the propositions of a mask; `next` is what is asked of a letter and the rest after it.
    fn expand(
        &mut self,
        exploring: &mut Exploring,
        list: &[u32],
        next: u32,
        mask: u32,
    ) -> Attempt<()> {
        let mut seen = SeenLists::new(self.alloc);
        for local in 0..power(mask.count_ones()) {
            let mut to = Vec::from_slice(self.alloc, list)?;
            let letter = spread(local, mask);
            let mark = self.lead(&mut to, letter);
            put(&mut to, 0, self.progress.left(next, letter));
            let place = seen.lists.number(&to)?;
            if place as usize >= seen.targets.len() {
                let target = self.target(exploring, &mut to)?;
                seen.targets.push(target)?;
            }
            let target = item(&seen.targets, place, 0);
            exploring.edges.push(MarkedEdge { target, mark })?;
        }
        Ok(())
    }

    /// Finds the edges of a state.
    fn explore(&mut self, exploring: &mut Exploring, number: u32) -> Attempt<()> {
        let list = Vec::from_slice(self.alloc, exploring.states.list(number))?;
        let next = self.progress.step(&mut self.pool, item(&list, 0, NEVER))?;
        let mask = self.mask(&list, next)?;
        self.expand(exploring, &list, next, mask)?;
        exploring.end(mask)
    }

    /// Adds the state that begins with what is asked.
    fn begin(&mut self, exploring: &mut Exploring, asked: u32) -> Attempt<()> {
        let mut start = vec![in self.alloc; 0u32; self.leaves.len().saturating_add(1)]?;
        put(&mut start, 0, asked);
        let _ = self.target(exploring, &mut start)?;
        Ok(())
    }

    /// Finds the edges of all states.
    fn explore_all(&mut self, exploring: &mut Exploring) -> Attempt<()> {
        for number in 0..u32::MAX {
            if number >= exploring.states.len() {
                break;
            }
            self.explore(exploring, number)?;
            if exploring.edges.len() > MOST_EDGES {
                return Err(TranslateFault::TooManyStates);
            }
        }
        Ok(())
    }

    /// Returns the product that begins with what is asked.
    pub fn product(&mut self, asked: u32) -> Attempt<ColouredProduct> {
        let mut exploring = Exploring {
            states: NumberedLists::new(self.alloc),
            masks: Vec::new(self.alloc),
            edges: Vec::new(self.alloc),
            ends: Vec::new(self.alloc),
        };
        self.begin(&mut exploring, asked)?;
        self.explore_all(&mut exploring)?;
        by_classes(self.alloc, exploring, self.progress.propositions)
    }
}

/// Lists to which a state leads before they are settled, and the state of each.
#[derive(Drop)]
struct SeenLists {
    lists: NumberedLists<u32>,
    targets: Vec<u32>,
}

impl SeenLists {
    fn new(alloc: Global) -> SeenLists {
        SeenLists {
            lists: NumberedLists::new(alloc),
            targets: Vec::new(alloc),
        }
    }
}

impl Exploring {
    /// Ends the edges of a state, which are those over the propositions of a mask.
    fn end(&mut self, mask: u32) -> Attempt<()> {
        self.masks.push(mask)?;
        self.ends.push(count(self.edges.len()))?;
        Ok(())
    }

    /// Returns the classes of letters that have the same edge from each state.
    fn classes(&self, alloc: Global, propositions: u32) -> Attempt<Classes> {
        let mut classes = Classes::new(alloc, propositions)?;
        let mut begin = 0;
        for (end, mask) in self.ends.iter().zip(&self.masks) {
            classes.refine(alloc, between(&self.edges, begin, *end), *mask)?;
            begin = *end;
        }
        Ok(classes)
    }

    /// Returns the edges of each state at these letters.
    fn edges_at(&self, alloc: Global, letters: &[u32]) -> Attempt<Vec<MarkedEdge>> {
        let size = self.ends.len().saturating_mul(letters.len());
        if size > MOST_EDGES {
            return Err(TranslateFault::TooManyStates);
        }
        let mut edges = Vec::with_capacity(alloc, size)?;
        let mut begin = 0;
        for (end, mask) in self.ends.iter().zip(&self.masks) {
            let row = between(&self.edges, begin, *end);
            for letter in letters {
                edges.push(item(row, gathered(*letter, *mask), MarkedEdge::NONE))?;
            }
            begin = *end;
        }
        Ok(edges)
    }

    /// Returns the edges of each state at the least letter of each class.
    fn by_classes(&self, alloc: Global, classes: &Classes) -> Attempt<Vec<MarkedEdge>> {
        let examples = classes.examples(alloc)?;
        self.edges_at(alloc, &examples)
    }
}

/// Returns the product with its letters in classes.
fn by_classes(alloc: Global, exploring: Exploring, propositions: u32) -> Attempt<ColouredProduct> {
    let classes = exploring.classes(alloc, propositions)?;
    let edges = exploring.by_classes(alloc, &classes)?;
    Ok(ColouredProduct {
        states: exploring.states,
        classes,
        edges,
    })
}
