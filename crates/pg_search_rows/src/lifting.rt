//! Lifting from zeros, as long as it looks short.

use crate::rows::ZEROS;
use crate::side::Side;
use std::alloc::{AllocError, Global};
use std::mem;

/// How often lifting may look at each edge.
const LOOKS: u64 = 3;

/// How many looks lifting may take on top of that, for graphs with few edges.
const LOOKS_OF_FEW: u64 = 4096;

impl Side<'_> {
    /// Lifts until no vertex waits any more. Returns false if it gives up because that looks as if it would take long: many
    /// vertices keep counting up, few climb for long, or there were too many looks.
    pub fn lift(&mut self, alloc: Global) -> Result<bool, AllocError> {
        let vertices = self.len() as usize;
        let edges = u64::from(self.graph.edges());
        let most = edges.saturating_mul(LOOKS).saturating_add(LOOKS_OF_FEW);
        let mut waiting = Vec::new(alloc);
        let mut next = Vec::new(alloc);
        self.step_odd(&mut waiting)?;
        let mut few = 0u64;
        for _ in 0..u64::MAX {
            let waited = waiting.len();
            let before = self.looks;
            self.turn(&mut waiting, &mut next, true)?;
            if waiting.len() <= vertices / 256 {
                few = few.wrapping_add(self.looks.wrapping_sub(before));
            }
            let counts = waiting.len() > vertices / 16 && waiting.len() / 4 > waited / 5;
            if waiting.is_empty() || counts || few > most / 12 || self.looks > most {
                break;
            }
        }
        for v in &waiting {
            self.waits_no_more(*v);
        }
        Ok(waiting.is_empty())
    }

    /// Lifts the vertices of odd priorities from zeros. They wait then.
    fn step_odd(&mut self, waiting: &mut Vec<u32>) -> Result<(), AllocError> {
        for v in 0..self.len() {
            let state = self.state(v);
            if state.row == ZEROS && state.priority() % 2 == 1 {
                let row = self.rows.step(ZEROS, state.priority())?;
                self.set_row(v, row);
                self.wake(v, waiting)?;
            }
        }
        Ok(())
    }

    /// Lifts or lowers the vertices that lead to those that wait. Those that changed wait then.
    pub(crate) fn turn(
        &mut self,
        waiting: &mut Vec<u32>,
        next: &mut Vec<u32>,
        lifts: bool,
    ) -> Result<(), AllocError> {
        for (place, v) in waiting.iter().enumerate() {
            self.look_ahead(waiting, place);
            self.waits_no_more(*v);
            if lifts {
                self.lift_predecessors(*v, next)?;
            } else {
                self.lower_predecessors(*v, next)?;
            }
        }
        waiting.clear();
        mem::swap(waiting, next);
        Ok(())
    }

    /// Lifts the vertices that a vertex no longer serves.
    fn lift_predecessors(&mut self, w: u32, next: &mut Vec<u32>) -> Result<(), AllocError> {
        let row = self.row(w);
        for v in self.predecessors(w) {
            let state = self.state(*v);
            if state.is_mine() && state.to != w
                || self.rows.serves(state.row, row, state.priority())
            {
                continue;
            }
            let mut from = row;
            if state.is_mine() {
                match self.other_from(*v, row) {
                    Some(least) => from = least,
                    None => continue,
                }
            }
            let lifted = self.rows.step(from, state.priority())?;
            self.set_row(*v, lifted);
            self.wake(*v, next)?;
        }
        Ok(())
    }

    /// Looks for another successor that serves a vertex of the winner. Keeps it and returns `None` if there is one. Otherwise keeps
    /// the least successor and returns its row.
    fn other_from(&mut self, v: u32, row: u32) -> Option<u32> {
        let state = self.state(v);
        let mut least = (state.to, row);
        for w in self.successors(v) {
            let there = self.row(*w);
            if self.rows.serves(state.row, there, state.priority()) {
                self.set_to(v, *w);
                return None;
            }
            if self.rows.is_under(there, least.1) {
                least = (*w, there);
            }
        }
        self.set_to(v, least.0);
        Some(least.1)
    }
}
