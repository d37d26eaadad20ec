//! The greatest way out of each run of places.

use pg_search_components::{NONE, count, item, put};
use pg_search_rows::{Rows, ZEROS};
use std::alloc::{AllocError, Global};

/// An edge that leads out of a run of places, and the row that it leads to.
#[derive(Clone, Copy)]
pub(crate) struct ExitEdge {
    pub row: u32,
    pub from: u32,
    pub to: u32,
}

impl ExitEdge {
    pub const NOWHERE: ExitEdge = ExitEdge {
        row: ZEROS,
        from: NONE,
        to: NONE,
    };
}

/// A binary tree over the places; each node has the greatest way of the places below it.
#[derive(Drop)]
pub(crate) struct Greatest {
    leaves: u32,
    ways: Vec<ExitEdge>,
}

impl Greatest {
    /// Returns a tree without ways over the given number of places.
    pub fn new(alloc: Global, places: usize) -> Result<Greatest, AllocError> {
        let mut leaves = 1usize;
        for _ in 0..31 {
            if leaves < places {
                leaves = leaves.saturating_mul(2);
            }
        }
        Ok(Greatest {
            leaves: count(leaves),
            ways: vec![in alloc; ExitEdge::NOWHERE; leaves.saturating_mul(2)]?,
        })
    }

    #[inline(always)]
    fn way(&self, node: u32) -> ExitEdge {
        item(&self.ways, node, ExitEdge::NOWHERE)
    }

    /// Puts a way at a place, if it is greater than the way there.
    pub fn put(&mut self, rows: &Rows, place: u32, way: ExitEdge) {
        let mut node = self.leaves.saturating_add(place);
        for _ in 0..33 {
            if node == 0 || !rows.is_under(self.way(node).row, way.row) {
                break;
            }
            put(&mut self.ways, node, way);
            node /= 2;
        }
    }

    fn greater(&self, rows: &Rows, way: ExitEdge, node: u32) -> ExitEdge {
        let other = self.way(node);
        if rows.is_under(way.row, other.row) {
            other
        } else {
            way
        }
    }

    /// Returns the greatest way of the places from `from` on and before `to`.
    pub fn over(&self, rows: &Rows, from: u32, to: u32) -> ExitEdge {
        let mut low = self.leaves.saturating_add(from);
        let mut high = self.leaves.saturating_add(to);
        let mut most = ExitEdge::NOWHERE;
        for _ in 0..33 {
            if low >= high {
                break;
            }
            if low % 2 == 1 {
                most = self.greater(rows, most, low);
                low = low.saturating_add(1);
            }
            if high % 2 == 1 {
                high = high.saturating_sub(1);
                most = self.greater(rows, most, high);
            }
            low /= 2;
            high /= 2;
        }
        most
    }
}
