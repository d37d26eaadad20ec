//! Zielonka trees (Theoretical Computer Science 200, 1998) of conditions over colours, and the parity automata that remember a leaf of
//! such a tree.

use crate::bdd::ALWAYS;
use crate::fault::{Attempt, TranslateFault};
use crate::numbers::{NONE, count, power, put, spend};
use crate::skeleton::Skeleton;
use std::alloc::Global;

/// The most sets of colours that are looked at for a tree.
const STEPS: u64 = 1 << 22;

/// The most nodes that a tree may have.
const MOST_NODES: usize = 1 << 17;

/// Which sets of recurring colours are accepted: a diagram over leaves.
#[derive(Clone, Copy)]
pub struct Condition<'a> {
    pub skeleton: &'a Skeleton,
    pub diagram: u32,
}

impl Condition<'_> {
    fn accepts(&self, colours: u32) -> bool {
        let bdd = &self.skeleton.progress.bdd;
        let mut f = self.diagram;
        for _ in 0..u32::MAX {
            let variable = bdd.top(f);
            if variable == NONE {
                break;
            }
            let (low, high) = bdd.halves(f);
            let number = self.skeleton.leaf_of(variable);
            f = match self.skeleton.leaves.get(number as usize) {
                Some(leaf) if leaf.accepts(colours) => high,
                _ => low,
            };
        }
        f == ALWAYS
    }
}

/// A set of colours. Its children are the greatest subsets that are accepted if it isn't, and that aren't if it is. Their numbers come one
/// after another.
#[derive(Clone, Copy)]
struct ZielonkaNode {
    colours: u32,
    first_child: u32,
    children: u32,
    parent: u32,
    depth: u32,
}

/// The leaf after a climb, and the priority of the climb: the lower the node that is reached, the less the priority.
#[derive(Clone, Copy)]
pub struct Climb {
    pub next: u32,
    pub priority: u32,
}

/// A tree; its root is node 0.
#[derive(Drop)]
pub struct Tree {
    nodes: Vec<ZielonkaNode>,
    /// The priority of the root.
    greatest: u32,
}

/// Whether a set is a subset of one of the others.
fn is_within_any(set: u32, others: &[u32]) -> bool {
    others.iter().any(|other| set & !*other == 0)
}

/// Returns the greatest subsets of a set that have the other value and all of the fixed colours.
fn alternatives(
    alloc: Global,
    condition: &Condition,
    set: u32,
    fixed: u32,
    steps: &mut u64,
) -> Attempt<Vec<u32>> {
    let value = condition.accepts(set);
    let mut found: Vec<u32> = Vec::new(alloc);
    let mut layer = vec![in alloc; set; 1]?;
    for _ in 0..=32 {
        let mut next = Vec::new(alloc);
        for larger in &layer {
            for colour in 0..32 {
                let subset = larger & !power(colour);
                let is_smaller = subset != *larger && fixed & power(colour) == 0;
                if !is_smaller || is_within_any(subset, &found) {
                    continue;
                }
                spend(steps, 1)?;
                if condition.accepts(subset) != value {
                    found.push(subset)?;
                } else {
                    next.push(subset)?;
                }
            }
        }
        next.sort_unstable();
        next.dedup();
        next.retain(|subset| !is_within_any(*subset, &found));
        layer = next;
    }
    Ok(found)
}

impl Tree {
    /// Returns the tree of a condition over colours. The fixed ones of these are met on each cycle.
    pub fn new(alloc: Global, condition: &Condition, colours: u32, fixed: u32) -> Attempt<Tree> {
        let mut tree = Tree {
            nodes: Vec::new(alloc),
            greatest: 0,
        };
        tree.add(colours, 0, 0)?;
        tree.grow(alloc, condition, fixed)?;
        let deepest = tree.deepest();
        let is_odd = condition.accepts(colours) != (deepest % 2 == 0);
        tree.greatest = deepest.saturating_add(is_odd as u32);
        Ok(tree)
    }

    /// Adds a node without children.
    fn add(&mut self, colours: u32, parent: u32, depth: u32) -> Attempt<()> {
        self.nodes.push(ZielonkaNode {
            colours,
            first_child: 0,
            children: 0,
            parent,
            depth,
        })?;
        Ok(())
    }

    /// Gives each node its children, level by level. Fails with `TooManyStates` if there are too many nodes then.
    fn grow(&mut self, alloc: Global, condition: &Condition, fixed: u32) -> Attempt<()> {
        let mut steps = STEPS;
        for place in 0..MOST_NODES {
            let Some(node) = self.nodes.get(place).copied() else {
                break;
            };
            let found = alternatives(alloc, condition, node.colours, fixed, &mut steps)?;
            self.add_children(count(place), node, &found)?;
        }
        if self.nodes.len() > MOST_NODES {
            return Err(TranslateFault::TooManyStates);
        }
        Ok(())
    }

    /// Adds the children of a node, which have these colours.
    fn add_children(&mut self, place: u32, node: ZielonkaNode, found: &[u32]) -> Attempt<()> {
        let mut node = node;
        node.first_child = count(self.nodes.len());
        node.children = count(found.len());
        put(&mut self.nodes, place, node);
        for subset in found {
            self.add(*subset, place, node.depth.saturating_add(1))?;
        }
        Ok(())
    }

    /// Returns the depth of the last node; none is deeper.
    fn deepest(&self) -> u32 {
        match self.nodes.last() {
            Some(node) => node.depth,
            None => 0,
        }
    }

    /// Returns the first leaf below a node.
    pub fn first_leaf(&self, node: u32) -> u32 {
        let mut leaf = node;
        for _ in 0..self.nodes.len() {
            match self.nodes.get(leaf as usize) {
                Some(node) if node.children > 0 => leaf = node.first_child,
                _ => break,
            }
        }
        leaf
    }

    fn depth(&self, node: u32) -> u32 {
        match self.nodes.get(node as usize) {
            Some(node) => node.depth,
            None => 0,
        }
    }

    /// Climbs from a leaf to the lowest node that has all colours that are met.
    pub fn climb(&self, leaf: u32, met: u32) -> Climb {
        let all = match self.nodes.first() {
            Some(root) => root.colours,
            None => 0,
        };
        let (mut from, mut place) = (leaf, leaf);
        for _ in 0..self.nodes.len() {
            match self.nodes.get(place as usize) {
                Some(node) if met & all & !node.colours != 0 => {
                    from = place;
                    place = node.parent;
                }
                _ => break,
            }
        }
        let next = if from == place {
            leaf
        } else {
            self.first_leaf(self.sibling(place, from))
        };
        let priority = self.greatest.saturating_sub(self.depth(place));
        Climb { next, priority }
    }

    /// Returns the child of a node after `child`, or the first one after the last.
    fn sibling(&self, node: u32, child: u32) -> u32 {
        let Some(node) = self.nodes.get(node as usize) else {
            return NONE;
        };
        let next = child.saturating_add(1);
        if next.saturating_sub(node.first_child) < node.children {
            next
        } else {
            node.first_child
        }
    }
}
