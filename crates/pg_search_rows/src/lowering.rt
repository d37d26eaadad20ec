//! Lowering of a closed map where successors allow less.

use crate::rows::ZEROS;
use crate::side::Side;
use pg_search_components::NONE;
use std::alloc::{AllocError, Global};

impl Side<'_> {
    /// Lowers until nothing changes: from a closed map to one in which each row is the step of a successor's row. The map stays
    /// closed. It stops earlier if there were more looks than there may be.
    pub fn lower(&mut self, alloc: Global, waiting: &mut Vec<u32>) -> Result<(), AllocError> {
        let mut next = Vec::new(alloc);
        for _ in 0..u64::MAX {
            if waiting.is_empty() || self.is_late() {
                break;
            }
            self.turn(waiting, &mut next, false)?;
        }
        Ok(())
    }

    /// Lowers the vertices that lead to a vertex.
    pub(crate) fn lower_predecessors(
        &mut self,
        v: u32,
        next: &mut Vec<u32>,
    ) -> Result<(), AllocError> {
        let row = self.row(v);
        for u in self.predecessors(v) {
            let state = self.state(*u);
            if state.row == ZEROS {
                continue;
            }
            if state.is_mine() {
                let low = self.rows.low(state.row, state.priority());
                if !self
                    .rows
                    .is_under(self.rows.cut(row, state.priority()), low)
                {
                    continue;
                }
                let lowered = self.rows.step(row, state.priority())?;
                self.set_row(*u, lowered);
                self.set_to(*u, v);
            } else if state.to != NONE && state.to != v || !self.refresh(*u)? {
                continue;
            }
            self.wake(*u, next)?;
        }
        Ok(())
    }

    /// Looks at all successors of a vertex. Returns true if it is lowered.
    pub fn refresh(&mut self, v: u32) -> Result<bool, AllocError> {
        let state = self.state(v);
        let to = if state.is_mine() {
            self.least_successor(v)
        } else {
            self.greatest_successor(v)
        };
        if to == NONE {
            return Ok(false);
        }
        self.set_to(v, to);
        let row = self.row(to);
        let lowered = self.rows.step(row, state.priority())?;
        self.set_row(v, lowered);
        Ok(lowered != state.row)
    }

    /// Returns a successor by which a vertex is lowered the most, or `NONE`.
    fn least_successor(&mut self, v: u32) -> u32 {
        let state = self.state(v);
        let mut least = self.rows.low(state.row, state.priority());
        let mut to = NONE;
        for w in self.successors(v) {
            let row = self.rows.cut(self.row(*w), state.priority());
            if self.rows.is_under(row, least) {
                least = row;
                to = *w;
            }
        }
        to
    }

    /// Returns a successor with the greatest row, or `NONE`.
    pub(crate) fn greatest_successor(&mut self, v: u32) -> u32 {
        let mut most = ZEROS;
        let mut to = NONE;
        for w in self.successors(v) {
            let row = self.row(*w);
            if to == NONE || self.rows.is_under(most, row) {
                most = row;
                to = *w;
            }
        }
        to
    }
}
