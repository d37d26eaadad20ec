//! Games of claims: each claim has a node, which leads to the nodes of the claims that it needs.
//!
//! A claim needs claims of the successors of its vertex: of all of them if the winner owns the vertex, and else of one. Where the opponent
//! wins the game, its order shows the claims.

use crate::asked::Asked;
use pg_arena::Player;
use pg_search_components::{NONE, at, count, is_marked, item, put};
use pg_search_rows::RowClaim;
use pg_search_winners::{Graph, Winners, find_winners};
use std::alloc::{AllocError, Global};
use std::mem;

/// The node at which the opponent has won; at `LOST` it has lost.
pub(crate) const WON: u32 = 0;

pub(crate) const LOST: u32 = 1;

/// The first node of a claim.
pub(crate) const FIRST: u32 = 2;

const NOTHING: Asked = Asked {
    vertex: NONE,
    row: NONE,
};

#[derive(Drop)]
pub(crate) struct Board {
    /// The node of each vertex with a claim on the board, or `NONE`.
    nodes: Vec<u32>,
    /// The claim of each node.
    claims: Vec<Asked>,
    priorities: Vec<u32>,
    owners: Vec<Player>,
    offsets: Vec<u32>,
    targets: Vec<u32>,
}

impl Board {
    /// Returns a board for claims of the vertices below `vertices`.
    pub fn new(alloc: Global, vertices: u32) -> Result<Board, AllocError> {
        Ok(Board {
            nodes: vec![in alloc; NONE; vertices as usize]?,
            claims: Vec::new(alloc),
            priorities: Vec::new(alloc),
            owners: Vec::new(alloc),
            offsets: Vec::new(alloc),
            targets: Vec::new(alloc),
        })
    }

    /// Removes all claims, and makes the nodes `WON` and `LOST`.
    pub fn clear(&mut self) -> Result<(), AllocError> {
        for claim in &self.claims {
            put(&mut self.nodes, claim.vertex, NONE);
        }
        self.claims.clear();
        self.owners.clear();
        self.offsets.clear();
        self.claims.resize(FIRST as usize, NOTHING)?;
        self.begin(1, false)?;
        self.lead_to(WON)?;
        self.begin(0, true)?;
        self.lead_to(LOST)
    }

    /// How many nodes there are.
    pub fn len(&self) -> u32 {
        count(self.claims.len())
    }

    /// Returns the claim of a node.
    pub fn claim(&self, node: u32) -> Asked {
        item(&self.claims, node, NOTHING)
    }

    /// Returns the node of a claim's vertex, and puts the claim on the board if the vertex has none.
    pub fn node(&mut self, claim: Asked) -> Result<u32, AllocError> {
        let node = at(&self.nodes, claim.vertex);
        if node != NONE {
            return Ok(node);
        }
        let node = self.len();
        put(&mut self.nodes, claim.vertex, node);
        self.claims.push(claim)?;
        Ok(node)
    }

    /// Begins the edges of the next node.
    pub fn begin(&mut self, priority: u32, is_mine: bool) -> Result<(), AllocError> {
        self.priorities.push(priority)?;
        self.owners
            .push(if is_mine { Player::Even } else { Player::Odd })?;
        self.offsets.push(count(self.targets.len()))?;
        Ok(())
    }

    /// Lets the node that was begun last lead to a node.
    #[inline(always)]
    pub fn lead_to(&mut self, node: u32) -> Result<(), AllocError> {
        self.targets.push(node)?;
        Ok(())
    }

    /// Plays the game.
    pub fn play(&mut self, alloc: Global) -> Result<PlayedGame, AllocError> {
        let priorities = mem::replace(&mut self.priorities, Vec::new(alloc));
        let targets = mem::replace(&mut self.targets, Vec::new(alloc));
        let graph = Graph::new(alloc, priorities, &self.owners, &self.offsets, targets)?;
        let winners = find_winners(alloc, &graph)?;
        Ok(PlayedGame { graph, winners })
    }

    /// Returns the claims that are kept and that the opponent wins, in an order that shows them.
    pub fn order(
        &self,
        alloc: Global,
        winners: &Winners,
        is_kept: &[bool],
    ) -> Result<Vec<RowClaim>, AllocError> {
        let list = &winners.of_odd;
        let mut places = Vec::with_capacity(alloc, list.len().saturating_add(1))?;
        let mut place = 0u32;
        for node in list {
            places.push(place)?;
            place = place.wrapping_add(is_marked(is_kept, *node) as u32);
        }
        places.push(place)?;
        let mut order = Vec::with_capacity(alloc, place as usize)?;
        for (before, node) in list.iter().enumerate() {
            if is_marked(is_kept, *node) {
                let before = count(before);
                let end = before.saturating_add(at(&winners.span, *node));
                let span = at(&places, end).wrapping_sub(at(&places, before));
                let Asked { vertex, row } = self.claim(*node);
                order.push(RowClaim { vertex, row, span })?;
            }
        }
        Ok(order)
    }
}

/// A game that was played.
#[derive(Drop)]
pub(crate) struct PlayedGame {
    graph: Graph,
    pub winners: Winners,
}

impl PlayedGame {
    /// Returns which nodes are reached from those of the first claims, up to a node, if the opponent goes as it chose.
    pub fn kept(&self, alloc: Global, end: u32) -> Result<Vec<bool>, AllocError> {
        let mut is_kept = vec![in alloc; false; self.graph.len() as usize]?;
        let mut open = Vec::new(alloc);
        for node in FIRST..end {
            keep(&mut is_kept, &mut open, node)?;
        }
        for _ in 0..u64::MAX {
            let Some(node) = open.pop() else {
                break;
            };
            if self.graph.owner(node) == 1 {
                keep(&mut is_kept, &mut open, at(&self.winners.choice, node))?;
                continue;
            }
            for target in self.graph.successors(node) {
                keep(&mut is_kept, &mut open, *target)?;
            }
        }
        Ok(is_kept)
    }
}

/// Keeps the node of a claim, if it wasn't kept yet.
fn keep(is_kept: &mut [bool], open: &mut Vec<u32>, node: u32) -> Result<(), AllocError> {
    if node >= FIRST && !item(is_kept, node, true) {
        put(is_kept, node, true);
        open.push(node)?;
    }
    Ok(())
}
