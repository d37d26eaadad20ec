//! The map of a winning strategy, by sweeps through the vertices, which are numbered so that most edges lead to lesser numbers.

use crate::side::Side;
use pg_search_components::{NONE, count};
use std::alloc::{AllocError, Global};

/// How often sweeps may look at each vertex and edge.
const LOOKS: u64 = 8;

/// Takes the first vertex out of a word of open vertices, which has a bit for each. Returns it, or `NONE` if there is none.
#[inline(always)]
fn take(open: &mut [u64], word: u32) -> u32 {
    if word as usize >= open.len() || open[word as usize] == 0 {
        return NONE;
    }
    let bits = open[word as usize];
    open[word as usize] = bits & bits.wrapping_sub(1);
    word.saturating_mul(64)
        .saturating_add(bits.trailing_zeros())
}

impl Side<'_> {
    /// Raises the rows to those under the winner's strategy, from rows that are at most those. Returns false if that takes more
    /// than five lifts for four vertices, or too many looks.
    pub fn sweep(&mut self, alloc: Global) -> Result<bool, AllocError> {
        let vertices = self.len();
        let mut open = vec![in alloc; u64::MAX; (vertices / 64 + 1) as usize]?;
        let words = count(open.len());
        let mut lifts = vertices.saturating_add(vertices / 4);
        let size = u64::from(self.graph.edges()).saturating_add(u64::from(self.len()));
        let most = self.looks.saturating_add(size.saturating_mul(LOOKS));
        let mut first = 0;
        for _ in 0..u64::MAX {
            let mut again = words;
            for word in first..words {
                for _ in 0..u64::MAX {
                    let v = take(&mut open, word);
                    if v >= vertices {
                        break;
                    }
                    if !self.lift_by_strategy(v)? {
                        continue;
                    }
                    if lifts == 0 || self.looks > most {
                        return Ok(false);
                    }
                    lifts -= 1;
                    again = again.min(self.open_predecessors(v, &mut open));
                }
            }
            if again == words {
                break;
            }
            first = again;
        }
        Ok(true)
    }

    /// Sets the row of a vertex by the strategy. Returns whether it changes.
    fn lift_by_strategy(&mut self, v: u32) -> Result<bool, AllocError> {
        let state = self.state(v);
        let to = if state.is_mine() {
            state.to
        } else {
            self.greatest_successor(v)
        };
        let there = self.row(to);
        let row = self.rows.step(there, state.priority())?;
        self.set_row(v, row);
        Ok(row != state.row)
    }

    /// Opens the vertices that lead to a vertex. Returns the first word with one of them that isn't after the vertex, or `NONE`.
    fn open_predecessors(&mut self, v: u32, open: &mut [u64]) -> u32 {
        let mut again = NONE;
        for u in self.predecessors(v) {
            let state = self.state(*u);
            let word = (*u / 64) as usize;
            if word >= open.len() || state.is_mine() && state.to != v {
                continue;
            }
            open[word] |= 1 << (*u % 64);
            if *u <= v {
                again = again.min(*u / 64);
            }
        }
        again
    }
}
