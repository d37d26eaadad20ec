//! Safra's trees (Foundations of Computer Science, 1988), with nodes in the order of their age (Piterman, Logical Methods in Computer
//! Science 3, 2007).

use crate::automaton::{KeyedEdges, MarkedEdge};
use crate::buchi::{Buchi, buchi_of};
use crate::fault::{Attempt, TranslateFault};
use crate::leaf::Leaf;
use crate::numbers::{MOST_EDGES, NONE, count, has_bit, is_marked, item, put, spend};
use crate::pool::FormulaPool;
use pg_search_components::NumberedLists;
use std::alloc::Global;

/// The most steps from node to node that are made.
const STEPS: u64 = 1 << 27;

/// A node: the place of its parent, and the states of its label as bits.
#[derive(Drop)]
struct SafraNode {
    parent: u32,
    label: Vec<u32>,
}

impl SafraNode {
    fn is_empty(&self) -> bool {
        self.label.iter().all(|word| *word == 0)
    }

    /// Keeps only the states of another label, or removes them.
    fn cut(&mut self, label: &[u32], keeps: bool) {
        for (word, other) in self.label.iter_mut().zip(label) {
            *word &= if keeps { *other } else { !*other };
        }
    }
}

/// A tree: its nodes in the order of their age, the root first.
#[derive(Drop)]
struct Tree {
    nodes: Vec<SafraNode>,
}

/// Returns the states to which those of a label lead at a letter, by all edges or only by those that accept.
fn image(
    alloc: Global,
    buchi: &Buchi,
    label: &[u32],
    letter: u32,
    accepting: bool,
) -> Attempt<Vec<u32>> {
    let mut image = vec![in alloc; 0u32; buchi.words as usize]?;
    let mut first = 0u32;
    for word in label {
        for bit in 0..32 {
            if has_bit(*word, bit) {
                let state = first.saturating_add(bit);
                let targets = buchi.image(state, letter, accepting);
                for (word, other) in image.iter_mut().zip(targets) {
                    *word |= *other;
                }
            }
        }
        first = first.saturating_add(32);
    }
    Ok(image)
}

impl Tree {
    /// Returns the tree that was written as a list; each label has `words` words.
    fn read(alloc: Global, list: &[u32], words: u32) -> Attempt<Tree> {
        let mut nodes = Vec::new(alloc);
        for part in list.chunks((words as usize).saturating_add(1)) {
            if let Some((parent, label)) = part.split_first() {
                nodes.push(SafraNode {
                    parent: *parent,
                    label: Vec::from_slice(alloc, label)?,
                })?;
            }
        }
        Ok(Tree { nodes })
    }

    /// Returns the nodes after a letter, and for each a new child with what was accepted, before anything is left out.
    fn grown(&self, alloc: Global, buchi: &Buchi, letter: u32) -> Attempt<Tree> {
        let mut nodes = Vec::new(alloc);
        for node in &self.nodes {
            nodes.push(SafraNode {
                parent: node.parent,
                label: image(alloc, buchi, &node.label, letter, false)?,
            })?;
        }
        for (place, node) in self.nodes.iter().enumerate() {
            nodes.push(SafraNode {
                parent: count(place),
                label: image(alloc, buchi, &node.label, letter, true)?,
            })?;
        }
        Ok(Tree { nodes })
    }

    /// Removes from each label the states that aren't in the parent's label, and those in the label of an older child of the parent.
    fn part(&mut self) {
        for place in 1..self.nodes.len() {
            let place = place.min(self.nodes.len());
            let (older, rest) = self.nodes.split_at_mut(place);
            let Some(node) = rest.first_mut() else {
                break;
            };
            for (other_place, other) in older.iter().enumerate() {
                if count(other_place) == node.parent {
                    node.cut(&other.label, true);
                } else if other_place > 0 && other.parent == node.parent {
                    node.cut(&other.label, false);
                }
            }
        }
    }

    /// Whether the labels of a node's children together are all of its label.
    fn is_fulfilled(&self, alloc: Global, place: u32) -> Attempt<bool> {
        let Some(node) = self.nodes.get(place as usize) else {
            return Ok(false);
        };
        let mut rest = SafraNode {
            parent: 0,
            label: node.label.clone()?,
        };
        for (other_place, other) in self.nodes.iter().enumerate() {
            if other_place > place as usize && other.parent == place {
                rest.cut(&other.label, false);
            }
        }
        Ok(rest.is_empty())
    }

    /// Returns which nodes go, and the least event: 2 i if node i was fulfilled, 2 i - 1 if it went, or `NONE`. The first `old` nodes were
    /// there before.
    fn leavers(&self, alloc: Global, old: u32) -> Attempt<(Vec<bool>, u32)> {
        let mut goes = vec![in alloc; false; self.nodes.len()]?;
        let mut event = NONE;
        for (place, node) in self.nodes.iter().enumerate() {
            let place = count(place);
            if place > 0 && is_marked(&goes, node.parent) {
                put(&mut goes, place, true);
            }
            if is_marked(&goes, place) {
                continue;
            }
            if node.is_empty() {
                put(&mut goes, place, true);
                if place < old {
                    event = event.min(place.saturating_mul(2).max(1).wrapping_sub(1));
                }
            } else if self.is_fulfilled(alloc, place)? {
                event = event.min(place.saturating_mul(2));
                for (other, child) in self.nodes.iter().enumerate() {
                    if count(other) > place && child.parent == place {
                        put(&mut goes, count(other), true);
                    }
                }
            }
        }
        Ok((goes, event))
    }

    /// Returns the nodes that stay, as a list.
    fn written(&self, alloc: Global, goes: &[bool]) -> Attempt<Vec<u32>> {
        let mut places = vec![in alloc; 0u32; self.nodes.len()]?;
        let mut list = Vec::new(alloc);
        let mut many = 0u32;
        for (place, node) in self.nodes.iter().enumerate() {
            let place = count(place);
            if !is_marked(goes, place) {
                put(&mut places, place, many);
                many = many.saturating_add(1);
                list.push(item(&places, node.parent, 0))?;
                list.extend_from_slice(&node.label)?;
            }
        }
        Ok(list)
    }
}

/// Returns the tree after a letter as a list, and the least event.
fn step(
    alloc: Global,
    buchi: &Buchi,
    list: &[u32],
    letter: u32,
    steps: &mut u64,
) -> Attempt<(Vec<u32>, u32)> {
    if list.is_empty() {
        return Ok((Vec::new(alloc), 1));
    }
    let tree = Tree::read(alloc, list, buchi.words)?;
    let mut grown = tree.grown(alloc, buchi, letter)?;
    let many = grown.nodes.len() as u64;
    spend(
        steps,
        many.saturating_mul(many).saturating_mul(buchi.words as u64),
    )?;
    grown.part();
    let (goes, event) = grown.leavers(alloc, count(tree.nodes.len()))?;
    Ok((grown.written(alloc, &goes)?, event))
}

/// The trees that were met, with the states of their roots, and the steps that are left.
#[derive(Drop)]
struct TreeStates {
    trees: NumberedLists<u32>,
    labels: NumberedLists<u32>,
    steps: u64,
}

impl TreeStates {
    /// Adds the first tree: a root with state 0.
    fn begin(&mut self, alloc: Global, words: u32) -> Attempt<()> {
        let mut root = vec![in alloc; 0u32; (words as usize).saturating_add(1)]?;
        put(&mut root, 1, 1);
        self.trees.number(&root)?;
        Ok(())
    }

    /// Appends the edge of a tree at a letter.
    fn add_edge(
        &mut self,
        alloc: Global,
        buchi: &Buchi,
        list: &[u32],
        letter: u32,
        edges: &mut Vec<MarkedEdge>,
    ) -> Attempt<()> {
        let (next, mark) = step(alloc, buchi, list, letter, &mut self.steps)?;
        let target = self.trees.number(&next)?;
        edges.push(MarkedEdge { target, mark })?;
        Ok(())
    }

    /// Appends the edges of a tree, and its key.
    fn expand(
        &mut self,
        alloc: Global,
        buchi: &Buchi,
        number: u32,
        found: &mut KeyedEdges,
    ) -> Attempt<()> {
        let list = Vec::from_slice(alloc, self.trees.list(number))?;
        let label = list.get(1..(buchi.words as usize).saturating_add(1));
        found.keys.push(self.labels.number(label.unwrap_or(&[]))?)?;
        for letter in 0..buchi.letters {
            self.add_edge(alloc, buchi, &list, letter, &mut found.edges)?;
        }
        Ok(())
    }

    /// Finds the edges of each tree.
    fn explore(&mut self, alloc: Global, buchi: &Buchi, found: &mut KeyedEdges) -> Attempt<()> {
        self.begin(alloc, buchi.words)?;
        for number in 0..u32::MAX {
            if number >= self.trees.len() {
                break;
            }
            self.expand(alloc, buchi, number, found)?;
            if found.edges.len() > MOST_EDGES {
                return Err(TranslateFault::TooManyStates);
            }
        }
        Ok(())
    }
}

/// Returns the edges between the trees of a Buchi automaton, with events as marks.
fn edges_of(alloc: Global, buchi: &Buchi) -> Attempt<KeyedEdges> {
    let mut states = TreeStates {
        trees: NumberedLists::new(alloc),
        labels: NumberedLists::new(alloc),
        steps: STEPS,
    };
    let mut found = KeyedEdges::new(alloc);
    states.explore(alloc, buchi, &mut found)?;
    Ok(found)
}

/// Returns the automaton of any formula.
pub fn by_trees(pool: &FormulaPool, f: u32) -> Attempt<Leaf> {
    let mask = pool.facts(f).propositions;
    let buchi = buchi_of(pool, f, mask)?;
    let mut found = edges_of(pool.alloc, &buchi)?;
    turn(&mut found.edges);
    let automaton = found.with_letters(pool.alloc, mask.count_ones())?;
    Leaf::new(&automaton, mask)
}

/// Turns events, of which the least counts, into priorities.
fn turn(edges: &mut [MarkedEdge]) {
    let mut most = 0u32;
    for edge in edges.iter() {
        if edge.mark != NONE {
            most = most.max(edge.mark);
        }
    }
    let most = (most / 2).saturating_mul(2).saturating_add(4);
    for edge in edges.iter_mut() {
        edge.mark = if edge.mark == NONE {
            1
        } else {
            most.saturating_sub(edge.mark)
        };
    }
}
