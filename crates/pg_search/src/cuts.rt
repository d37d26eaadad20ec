//! The rows of all vertices without the components below a level that rises.

use pg_search_components::{NONE, item, put};
use pg_search_rows::Side;
use std::alloc::{AllocError, Global};

/// The row of a vertex without the components below some level, and the priority of the last component that is left.
#[derive(Clone, Copy)]
struct CutRow {
    row: u32,
    priority: u32,
}

impl CutRow {
    /// The cut of a vertex that wasn't asked for yet.
    const UNKNOWN: CutRow = CutRow {
        row: NONE,
        priority: 0,
    };
}

#[derive(Drop)]
pub(crate) struct Cuts {
    cuts: Vec<CutRow>,
}

impl Cuts {
    pub fn new(alloc: Global, vertices: u32) -> Result<Cuts, AllocError> {
        Ok(Cuts {
            cuts: vec![in alloc; CutRow::UNKNOWN; vertices as usize]?,
        })
    }

    /// Returns the row of a vertex without the components below a level. The level is no less than those that were asked for before.
    #[inline(always)]
    pub fn row(&mut self, side: &Side, v: u32, level: u32) -> u32 {
        let cut = item(&self.cuts, v, CutRow::UNKNOWN);
        if cut.priority >= level {
            return cut.row;
        }
        self.go_up(side, v, cut, level)
    }

    fn go_up(&mut self, side: &Side, v: u32, cut: CutRow, level: u32) -> u32 {
        let mut row = if cut.row == NONE {
            side.row(v)
        } else {
            cut.row
        };
        let mut node = side.rows.node(row);
        for _ in 0..u64::MAX {
            if node.priority >= level {
                break;
            }
            row = node.parent;
            node = side.rows.node(row);
        }
        let priority = node.priority;
        put(&mut self.cuts, v, CutRow { row, priority });
        row
    }
}
