//! The search for the least map of a side: from below by lifting where that is short, and else from above.
//!
//! From above: the map of a winning strategy is closed. It is lowered where a successor gives less, until none does, or until that takes
//! too long. Rows that are still too great hold each other up: they are set by levels. All this is done for a lesser game, if there is one.

use crate::exact::set_exactly;
use crate::justifying::{finish, lower_to_least};
use crate::reducing::Reduced;
use crate::ways::Ways;
use pg_search_components::NONE;
use pg_search_rows::{RowClaim, Side};
use std::alloc::{AllocError, Global};

/// Finds the least rows of the vertices that the winner wins with these choices. Returns claims of them, or `None` if winners aren't found.
pub fn find(
    side: &mut Side<'_>,
    alloc: Global,
    choices: &[u32],
) -> Result<Option<Vec<RowClaim>>, AllocError> {
    if side.lift(alloc)? {
        return finish(side, alloc, true);
    }
    side.choose(choices);
    if !side.has_no_choice() {
        return find_reduced(side, alloc);
    }
    if side.sweep(alloc)? {
        // then the map of the strategy is the least one
        return finish(side, alloc, true);
    }
    side.clear(alloc)?;
    let mut ways = Some(Ways::new(alloc, side.len())?);
    let is_shown = set_exactly(side, alloc, &mut ways)?;
    if let Some(ways) = ways
        && is_shown
    {
        return Ok(Some(ways.into_claims()));
    }
    side.clear(alloc)?;
    set_exactly(side, alloc, &mut None)?;
    finish(side, alloc, true)
}

/// Finds the least rows where the winner has a choice: those of a lesser game first, if there is one that is much less. Returns claims of
/// them, or `None` if winners aren't found.
fn find_reduced(side: &mut Side<'_>, alloc: Global) -> Result<Option<Vec<RowClaim>>, AllocError> {
    let reduced = Reduced::of(alloc, side)?;
    if !reduced.is_small(side) {
        drop(reduced);
        set_from_above(side, alloc)?;
        return finish(side, alloc, false);
    }
    let mut lesser = reduced.side(alloc, side)?;
    set_from_above(&mut lesser, alloc)?;
    if !lower_to_least(&mut lesser, alloc)? {
        return Ok(None);
    }
    reduced.extend(lesser, side)?;
    finish(side, alloc, true)
}

/// Sets the rows under the winner's strategy, and lowers them.
fn set_from_above(side: &mut Side<'_>, alloc: Global) -> Result<(), AllocError> {
    if !side.sweep(alloc)? {
        set_exactly(side, alloc, &mut None)?;
    }
    lower(side, alloc)
}

/// Lowers the map of a strategy.
fn lower(side: &mut Side<'_>, alloc: Global) -> Result<(), AllocError> {
    let mut waiting = Vec::new(alloc);
    for v in 0..side.len() {
        if !side.state(v).is_mine() {
            side.set_to(v, NONE);
        } else if side.refresh(v)? {
            side.wake(v, &mut waiting)?;
        }
    }
    side.lower(alloc, &mut waiting)
}
