//! Strategy improvement (Jens Vöge and Marcin Jurdziński, A Discrete Strategy Improvement Algorithm for Solving Parity Games, 2000)
//! where one player may stop (Sven Schewe, An Optimal Strategy Improvement Algorithm for Solving Parity Games, 2008), on a part of
//! the graph.
//!
//! Even may stop before each vertex. A play that stops has a worth: how often it met each priority. Of two worths, the greatest
//! priority at which they differ decides: if it is even, more is better for Even, and if it is odd, less is. Odd answers a strategy
//! of Even as well as it can. Then Even improves its strategy wherever the worths show that something else is better, and so on.
//! The only cycles that are ever closed are those that Even wins; so Even wins what never stops in the end, and Odd wins the rest.

use crate::graph::Graph;
use crate::table::{FIRST, RegionTable, WAITING};
use pg_search_components::{NONE, at, count, put};
use std::alloc::{AllocError, Global};

/// A node of a tree with a count at each leaf, which keeps it on the left. Trees share nodes. The sum tells trees apart: it adds up
/// a number for each count.
#[derive(Clone, Copy)]
struct CountNode {
    left: u32,
    right: u32,
    sum: u64,
}

/// The tree of zeros, and each part of that tree.
const ZERO: u32 = 0;

const ZEROS: CountNode = CountNode {
    left: ZERO,
    right: ZERO,
    sum: 0,
};

/// The worth of a play that never stops; a worth that isn't known yet; and the worth of a vertex on the path that is being
/// followed.
const FOREVER: u32 = u32::MAX;

const UNKNOWN: u32 = u32::MAX - 1;

const MET: u32 = u32::MAX - 2;

#[derive(Drop)]
pub(crate) struct Improvement {
    /// The leaf of the priority of each vertex, where neighbours of one parity share a leaf; and half the number of leaves of a
    /// tree.
    leaves: Vec<u32>,
    half: u32,
    /// All nodes of trees; the first one is the tree of zeros.
    nodes: Vec<CountNode>,
    /// The tree that is the worth of each vertex.
    worths: Vec<u32>,
    /// What the owner of each vertex chooses, and 1 for each vertex before which Even doesn't stop.
    choices: Vec<u32>,
    passes: Vec<u32>,
    path: Vec<u32>,
}

/// Returns a number for a leaf that looks random.
fn key(leaf: u32) -> u64 {
    let mixed = u64::from(leaf)
        .wrapping_add(1)
        .wrapping_mul(0x9E37_79B9_7F4A_7C15);
    let mixed = (mixed ^ mixed >> 30).wrapping_mul(0xBF58_476D_1CE4_E5B9);
    let mixed = (mixed ^ mixed >> 27).wrapping_mul(0x94D0_49BB_1331_11EB);
    mixed ^ mixed >> 31
}

impl Improvement {
    pub fn new(alloc: Global, vertices: u32) -> Result<Improvement, AllocError> {
        Ok(Improvement {
            leaves: vec![in alloc; 0; vertices as usize]?,
            half: 0,
            nodes: Vec::new(alloc),
            worths: vec![in alloc; UNKNOWN; vertices as usize]?,
            choices: vec![in alloc; NONE; vertices as usize]?,
            passes: vec![in alloc; 0; vertices as usize]?,
            path: Vec::new(alloc),
        })
    }

    /// Begins with a part, whose vertices are given by rising priority. At first Even stops everywhere.
    pub fn begin(&mut self, graph: &Graph, table: &RegionTable, part: &[u32]) {
        let leaves = graph.compress(part, &mut self.leaves);
        for v in part {
            let choice = table.first_from(graph.successors(*v), WAITING);
            put(&mut self.choices, *v, choice.unwrap_or(NONE));
            put(&mut self.passes, *v, 0);
        }
        self.half = 0;
        for bit in 0..u32::BITS {
            if leaves.saturating_sub(1) >> bit != 0 {
                self.half = 1 << bit;
            }
        }
    }

    /// Continues with the part until Even can't improve its strategy, and then puts each vertex into its winner's region. Returns
    /// false if that takes more than `looks` looks.
    pub fn run(
        &mut self,
        graph: &Graph,
        table: &mut RegionTable,
        part: &[u32],
        looks: u64,
    ) -> Result<bool, AllocError> {
        let most = table.looks.saturating_add(looks);
        for _ in 0..u64::MAX {
            if table.looks > most {
                break;
            }
            self.find_worths(part)?;
            table.look(self.nodes.len());
            if self.switch(graph, table, part, 1) {
                continue;
            }
            let goes_on = self.go_on(part);
            if !self.switch(graph, table, part, 0) && !goes_on {
                self.show(table, part);
                return Ok(true);
            }
        }
        Ok(false)
    }

    /// Puts each vertex into its winner's region, and sets what is chosen there.
    fn show(&self, table: &mut RegionTable, part: &[u32]) {
        for v in part {
            let loser_is_even = at(&self.worths, *v) != FOREVER;
            table.mark(*v, FIRST.saturating_add(u32::from(loser_is_even)));
            put(&mut table.choices, *v, at(&self.choices, *v));
        }
    }

    fn node(&self, number: u32) -> CountNode {
        self.nodes.get(number as usize).copied().unwrap_or(ZEROS)
    }

    /// Returns the worth of a play that comes to a vertex.
    fn worth(&self, v: u32) -> u32 {
        if at(&self.passes, v) == 1 {
            at(&self.worths, v)
        } else {
            ZERO
        }
    }

    /// Returns the tree with one more at a leaf.
    fn add(&mut self, tree: u32, leaf: u32) -> Result<u32, AllocError> {
        let root = count(self.nodes.len());
        let mut node = self.node(tree);
        let mut half = self.half;
        for _ in 0..u32::BITS {
            node.sum = node.sum.wrapping_add(key(leaf));
            if half == 0 {
                break;
            }
            let next = count(self.nodes.len()).saturating_add(1);
            let other = if leaf & half == 0 {
                std::mem::replace(&mut node.left, next)
            } else {
                std::mem::replace(&mut node.right, next)
            };
            self.nodes.push(node)?;
            node = self.node(other);
            half /= 2;
        }
        node.left = node.left.saturating_add(1);
        self.nodes.push(node)?;
        Ok(root)
    }

    /// Whether a worth is worse for Even than another.
    fn is_less(&self, worth: u32, other: u32) -> bool {
        if worth == other || worth == FOREVER || other == FOREVER {
            return worth != other && other == FOREVER;
        }
        let (mut a, mut b) = (self.node(worth), self.node(other));
        if a.sum == b.sum {
            return false;
        }
        let mut half = self.half;
        let mut leaf = 0;
        for _ in 0..u32::BITS {
            if half == 0 {
                break;
            }
            let (right, other) = (self.node(a.right), self.node(b.right));
            if right.sum == other.sum {
                (a, b) = (self.node(a.left), self.node(b.left));
            } else {
                (a, b) = (right, other);
                leaf = half;
            }
            half /= 2;
        }
        (a.left < b.left) == (leaf != 1)
    }

    /// Finds the worth of each vertex under the choices of both players.
    fn find_worths(&mut self, part: &[u32]) -> Result<(), AllocError> {
        self.nodes.clear();
        self.nodes.push(ZEROS)?;
        for v in part {
            put(&mut self.worths, *v, UNKNOWN);
        }
        for v in part {
            self.follow(*v)?;
        }
        Ok(())
    }

    /// Finds the worths of a vertex and of those after it on its path.
    fn follow(&mut self, v: u32) -> Result<(), AllocError> {
        let mut v = v;
        for _ in 0..u64::MAX {
            if at(&self.worths, v) != UNKNOWN {
                break;
            }
            put(&mut self.worths, v, MET);
            self.path.push(v)?;
            v = at(&self.choices, v);
            if at(&self.passes, v) != 1 {
                break;
            }
        }
        for _ in 0..u64::MAX {
            let Some(v) = self.path.pop() else {
                break;
            };
            let choice = at(&self.choices, v);
            let worth = match self.worth(choice) {
                MET | FOREVER => FOREVER,
                worth => {
                    let leaf = at(&self.leaves, v);
                    self.add(worth, leaf)?
                }
            };
            put(&mut self.worths, v, worth);
        }
        Ok(())
    }

    /// Lets Even go on wherever that is better than stopping. Returns whether Even goes on anywhere where it stopped before.
    fn go_on(&mut self, part: &[u32]) -> bool {
        let mut goes_on = false;
        for v in part {
            if at(&self.passes, *v) == 0 && self.is_less(ZERO, at(&self.worths, *v)) {
                put(&mut self.passes, *v, 1);
                goes_on = true;
            }
        }
        goes_on
    }

    /// Lets a player choose what is best for it. Returns whether any choice is new.
    fn switch(
        &mut self,
        graph: &Graph,
        table: &mut RegionTable,
        part: &[u32],
        player: u32,
    ) -> bool {
        let mut is_new = false;
        for v in part {
            if graph.owner(*v) != player {
                continue;
            }
            let row = graph.successors(*v);
            table.look(row.len());
            for w in row {
                let (old, new) = (self.worth(at(&self.choices, *v)), self.worth(*w));
                let is_better = match player {
                    0 => self.is_less(old, new),
                    _ => self.is_less(new, old),
                };
                if is_better && table.region(*w) >= WAITING {
                    put(&mut self.choices, *v, *w);
                    is_new = true;
                }
            }
        }
        is_new
    }
}
