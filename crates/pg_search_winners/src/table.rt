//! What is known of each vertex while a game is solved, and attractors.

use crate::graph::Graph;
use pg_search_components::{NONE, at, count, put};
use std::alloc::{AllocError, Global};

/// The region of a vertex is 0 if Even wins it, and 1 if Odd does. Then comes the region of vertices that wait, then, from `FIRST`
/// on, the regions that a method makes for as long as it needs them, and last the region of what is free for the method.
pub(crate) const WAITING: u32 = 2;

pub(crate) const FIRST: u32 = 4;

pub(crate) const FREE: u32 = u32::MAX;

/// Rows with more successors than this are searched from where the last search in them ended.
const NARROW: usize = 16;

/// Which vertices an attractor takes: for a player, those in regions from `low` on, into the region `mark`, which is lower.
#[derive(Clone, Copy)]
pub(crate) struct Attraction {
    pub player: u32,
    pub low: u32,
    pub mark: u32,
}

#[derive(Drop)]
pub(crate) struct RegionTable {
    pub regions: Vec<u32>,
    /// What the winner, or the player who may become it, chooses at each vertex.
    pub choices: Vec<u32>,
    /// Where the last search in each row ended; empty if no row is long.
    hints: Vec<u32>,
    /// The number of vertices and edges that were looked at.
    pub looks: u64,
    /// What `look_ahead` saw last, which nothing reads.
    seen: u32,
}

impl RegionTable {
    /// Makes a table in which all vertices wait.
    pub fn new(alloc: Global, graph: &Graph) -> Result<RegionTable, AllocError> {
        let all = graph.len() as usize;
        let is_wide = (0..graph.len()).any(|v| graph.successors(v).len() > NARROW);
        let hints = if is_wide { all } else { 0 };
        Ok(RegionTable {
            regions: vec![in alloc; WAITING; all]?,
            choices: vec![in alloc; NONE; all]?,
            hints: vec![in alloc; 0; hints]?,
            looks: 0,
            seen: 0,
        })
    }

    /// Returns the region of a vertex.
    #[inline(always)]
    pub fn region(&self, v: u32) -> u32 {
        at(&self.regions, v)
    }

    /// Puts a vertex into a region.
    #[inline(always)]
    pub fn mark(&mut self, v: u32, region: u32) {
        put(&mut self.regions, v, region);
    }

    /// Counts `many` looks.
    #[inline(always)]
    pub fn look(&mut self, many: usize) {
        self.looks = self.looks.wrapping_add(many as u64);
    }

    /// Returns the first of some vertices that is in the region `low` or a later one.
    #[inline(always)]
    pub fn first_from(&self, row: &[u32], low: u32) -> Option<u32> {
        for w in row {
            if self.region(*w) >= low {
                return Some(*w);
            }
        }
        None
    }

    /// Whether a vertex with this row leads into the region `low` or a later one.
    #[inline(always)]
    fn leads(&mut self, v: u32, row: &[u32], low: u32) -> bool {
        if row.len() > NARROW {
            return self.leads_by_hint(v, row, low);
        }
        self.first_from(row, low).is_some()
    }

    /// Whether a vertex with this long row leads into the region `low` or a later one.
    fn leads_by_hint(&mut self, v: u32, row: &[u32], low: u32) -> bool {
        let mut place = at(&self.hints, v);
        for _ in 0..row.len() {
            if place as usize >= row.len() {
                place = 0;
            }
            if self.region(at(row, place)) >= low {
                put(&mut self.hints, v, place);
                return true;
            }
            place = place.wrapping_add(1);
        }
        false
    }

    /// Attracts predecessors of a vertex, and lists them.
    #[inline(always)]
    pub fn pull(
        &mut self,
        graph: &Graph,
        list: &mut Vec<u32>,
        target: u32,
        attraction: Attraction,
    ) -> Result<(), AllocError> {
        let Attraction { player, low, mark } = attraction;
        let predecessors = graph.predecessors(target);
        self.look(predecessors.len());
        for v in predecessors {
            if self.region(*v) < low {
                continue;
            }
            let mut choice = NONE;
            if graph.owner(*v) == player {
                choice = target;
            } else if self.leads(*v, graph.successors(*v), low) {
                continue;
            }
            put(&mut self.choices, *v, choice);
            self.mark(*v, mark);
            list.push(*v)?;
        }
        Ok(())
    }

    /// Attracts to the vertices of the list, from a place on, and appends what is attracted to it.
    pub fn attract(
        &mut self,
        graph: &Graph,
        list: &mut Vec<u32>,
        from: usize,
        attraction: Attraction,
    ) -> Result<(), AllocError> {
        for place in from..usize::MAX {
            let Some(target) = list.get(place).copied() else {
                break;
            };
            self.look_ahead(graph, list, place);
            self.pull(graph, list, target, attraction)?;
        }
        Ok(())
    }

    /// Reads what is needed soon, so that nothing has to wait for it then.
    #[inline(always)]
    fn look_ahead(&mut self, graph: &Graph, list: &[u32], place: usize) {
        let mut seen = 0;
        if let Some(target) = list.get(place.wrapping_add(12)) {
            seen ^= count(graph.predecessors(*target).len());
        }
        if let Some(target) = list.get(place.wrapping_add(8)) {
            seen ^= graph.predecessors(*target).first().copied().unwrap_or(0);
        }
        if let Some(target) = list.get(place.wrapping_add(4)) {
            for v in graph.predecessors(*target).iter().take(4) {
                seen ^= self.region(*v) ^ graph.owner(*v);
            }
        }
        self.seen ^= seen;
    }
}
