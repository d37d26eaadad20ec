//! Claims that lead to earlier claims alone.

use pg_search_components::{NONE, at, is_marked, put};
use pg_search_rows::{RowClaim, Side, ZEROS};
use std::alloc::{AllocError, Global};

#[derive(Drop)]
struct Attracting<'m> {
    is_settled: &'m mut [bool],
    /// For each vertex of the winner, how many successors must be claimed before it; `NONE` if it could be lowered.
    left: Vec<u32>,
    /// The vertices whose rows are claimed, in order.
    order: Vec<u32>,
}

impl Attracting<'_> {
    /// Claims the row of a vertex.
    fn claim(&mut self, v: u32) -> Result<(), AllocError> {
        put(self.is_settled, v, true);
        self.order.push(v)?;
        Ok(())
    }

    /// Claims the row of a vertex if that needs nothing, and else counts what it needs.
    fn begin(&mut self, side: &mut Side, v: u32) -> Result<(), AllocError> {
        let state = side.state(v);
        if state.row == ZEROS {
            return Ok(());
        }
        put(self.is_settled, v, false);
        let low = side.rows.low(state.row, state.priority());
        if low == ZEROS {
            return self.claim(v);
        }
        if state.is_mine() {
            let mut left = 0u32;
            for w in side.successors(v) {
                let row = side.row(*w);
                if side.is_late() && side.rows.is_under(row, low) {
                    left = NONE;
                } else {
                    left = left.saturating_add(1);
                }
            }
            put(&mut self.left, v, left);
        }
        Ok(())
    }

    /// Claims the rows of the predecessors of `w` that need no more than the claim of `w` and those before it.
    fn go_back(&mut self, side: &mut Side, w: u32) -> Result<(), AllocError> {
        let row = side.row(w);
        for v in side.predecessors(w) {
            if is_marked(self.is_settled, *v) {
                continue;
            }
            let state = side.state(*v);
            let is_shown = if state.is_mine() {
                let left = at(&self.left, *v).saturating_sub(1);
                put(&mut self.left, *v, left);
                left == 0
            } else {
                let low = side.rows.low(state.row, state.priority());
                !side.rows.is_under(row, low)
            };
            if is_shown {
                self.claim(*v)?;
            }
        }
        Ok(())
    }
}

/// Returns the claims of rows that lead to earlier claims alone, in their order. Vertices that aren't claimed are no longer settled, except
/// those whose rows are zeros. No vertex is claimed that could be lowered: there are such vertices only where lowering was cut short.
pub fn attract(
    side: &mut Side<'_>,
    alloc: Global,
    is_settled: &mut [bool],
) -> Result<Vec<RowClaim>, AllocError> {
    let mut attracting = Attracting {
        is_settled,
        left: vec![in alloc; 0; side.len() as usize]?,
        order: Vec::new(alloc),
    };
    for v in 0..side.len() {
        attracting.begin(side, v)?;
    }
    for place in 0..usize::MAX {
        let Some(w) = attracting.order.get(place).copied() else {
            break;
        };
        side.look_ahead(&attracting.order, place);
        attracting.go_back(side, w)?;
    }
    let mut claims = Vec::with_capacity(alloc, attracting.order.len())?;
    for v in &attracting.order {
        let row = side.row(*v);
        claims.push(RowClaim {
            vertex: *v,
            row,
            span: 0,
        })?;
    }
    Ok(claims)
}
