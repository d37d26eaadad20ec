//! The edges that are left when a player moves as it chose.

use crate::graph::Graph;
use pg_search_components::{Edges, at, between};

/// The edges inside a region, where its player moves as it chose.
#[derive(Clone, Copy)]
pub struct Played<'a> {
    pub graph: &'a Graph,
    /// What the player chooses at each of its vertices.
    pub choices: &'a [u32],
    /// The region of each vertex.
    pub regions: &'a [u32],
    /// The player of the region: Even is 0, Odd is 1.
    pub player: u32,
    pub region: u32,
}

impl Edges for Played<'_> {
    #[inline(always)]
    fn targets(&self, v: u32) -> &[u32] {
        if self.graph.owner(v) == self.player {
            between(self.choices, v, v.saturating_add(1))
        } else {
            self.graph.successors(v)
        }
    }

    #[inline(always)]
    fn holds(&self, _: u32, target: u32) -> bool {
        at(self.regions, target) == self.region
    }
}
