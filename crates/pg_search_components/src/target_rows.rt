//! Edges row by row.

use crate::components::Edges;
use crate::numbers::{NONE, at, between, count, put};
use std::alloc::{AllocError, Global};

/// Where the edges of each vertex lead, row by row.
#[derive(Drop)]
pub struct TargetRows {
    /// Where each row begins, and one more entry at the end.
    starts: Vec<u32>,
    targets: Vec<u32>,
}

impl Edges for TargetRows {
    #[inline(always)]
    fn targets(&self, v: u32) -> &[u32] {
        let to = at(&self.starts, v.saturating_add(1));
        between(&self.targets, at(&self.starts, v), to)
    }

    #[inline(always)]
    fn holds(&self, _: u32, _: u32) -> bool {
        true
    }
}

impl TargetRows {
    /// Makes an empty list of rows, with room for `rows` rows.
    pub fn with_capacity(alloc: Global, rows: usize) -> Result<TargetRows, AllocError> {
        let mut starts = Vec::with_capacity(alloc, rows.saturating_add(1))?;
        starts.push(0)?;
        Ok(TargetRows {
            starts,
            targets: Vec::new(alloc),
        })
    }

    /// Appends an edge to the row that hasn't ended yet.
    #[inline(always)]
    pub fn push(&mut self, target: u32) -> Result<(), AllocError> {
        self.targets.push(target)?;
        Ok(())
    }

    /// Ends a row.
    #[inline(always)]
    pub fn end(&mut self) -> Result<(), AllocError> {
        self.starts.push(count(self.targets.len()))?;
        Ok(())
    }

    /// Forgets all edges, and begins anew with `rows` rows, whose edges must be counted and then put in.
    pub fn clear(&mut self, rows: u32) -> Result<(), AllocError> {
        self.starts.clear();
        self.starts.resize(rows as usize, 0)
    }

    /// Counts an edge of a row.
    #[inline(always)]
    pub fn count(&mut self, row: u32) {
        let degree = at(&self.starts, row).wrapping_add(1);
        put(&mut self.starts, row, degree);
    }

    /// Makes room for the edges that were counted.
    pub fn make_room(&mut self) -> Result<(), AllocError> {
        let mut all = 0u32;
        for start in self.starts.iter_mut() {
            all = all.saturating_add(*start);
            *start = all;
        }
        self.starts.push(all)?;
        self.targets.clear();
        self.targets.resize(all as usize, NONE)
    }

    /// Puts an edge that was counted into its row, from the end of the row backwards.
    #[inline(always)]
    pub fn put(&mut self, row: u32, target: u32) {
        let place = at(&self.starts, row).wrapping_sub(1);
        put(&mut self.starts, row, place);
        put(&mut self.targets, place, target);
    }

    /// Returns the targets of all rows, row by row.
    pub fn all(&self) -> &[u32] {
        &self.targets
    }
}
