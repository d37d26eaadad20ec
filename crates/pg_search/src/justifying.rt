//! From a closed map to the least one, and claims of all its rows.
//!
//! The first claims are of the vertices whose own rows lead to earlier claims alone. For the other vertices there is one game, with one
//! claim for each, of its own row: the claims that the opponent wins are settled, and the rows of the rest are set by levels. To show the
//! rows of the rest, the opponent may have to choose otherwise for great components than for small ones. So they are claimed level by
//! level, from the least on, each claim with the claims of the same level that it needs. A claim leads to claims of its level or of greater
//! ones. The rows of these are the first that are enough on the way to the rows of the successors; only claims that the game's choices need
//! are asked for. In the order of all claims the greatest level comes first.

use crate::asked::{Asked, Levels};
use crate::attracting::attract;
use crate::board::{Board, FIRST, LOST, WON};
use crate::cuts::Cuts;
use crate::leveling::set_by_levels;
use pg_search_components::{NONE, at, count, is_marked, put};
use pg_search_rows::{RowClaim, Side, ZEROS};
use std::alloc::{AllocError, Global};

/// Stands for all levels, in the game of own rows.
const ALL: u32 = NONE;

/// A claim of another level that a node needs.
#[derive(Clone, Copy)]
struct Beyond {
    node: u32,
    asked: Asked,
}

#[derive(Drop)]
struct Justifying {
    board: Board,
    is_settled: Vec<bool>,
    beyond: Vec<Beyond>,
    cuts: Cuts,
    /// The claims that a claim may lead to.
    needed: Vec<Asked>,
}

impl Justifying {
    /// Begins with what is settled; all other claims are open.
    fn new(alloc: Global, side: &Side, is_settled: Vec<bool>) -> Result<Justifying, AllocError> {
        Ok(Justifying {
            board: Board::new(alloc, side.len())?,
            is_settled,
            beyond: Vec::new(alloc),
            cuts: Cuts::new(alloc, side.len())?,
            needed: Vec::new(alloc),
        })
    }

    /// Settles what the open claims of own rows show without other claims, and returns these claims in their order. `None` if winners
    /// aren't found.
    fn settle(
        &mut self,
        alloc: Global,
        side: &mut Side,
        open: &[Asked],
    ) -> Result<Option<Vec<RowClaim>>, AllocError> {
        let mut levels = Levels::none(alloc);
        let Some(shown) = self.play(alloc, side, open, ALL, &mut levels)? else {
            return Ok(None);
        };
        for claim in &shown {
            put(&mut self.is_settled, claim.vertex, true);
        }
        Ok(Some(shown))
    }

    /// Sets the least rows of the vertices that aren't settled. Returns false if winners aren't found.
    fn set_rest(&mut self, alloc: Global, side: &mut Side) -> Result<bool, AllocError> {
        let open = unsettled(alloc, side, &self.is_settled)?;
        set_by_levels(side, alloc, &open, &self.is_settled, &mut self.board)
    }

    /// Returns the claim that a claim of a level needs of a successor that isn't settled, or `None` if the successor has no such row.
    #[inline(always)]
    fn need(&mut self, side: &Side, w: u32, low: u32, level: u32) -> Option<Asked> {
        let row = if level == ALL {
            side.row(w)
        } else {
            self.cuts.row(side, w, level)
        };
        let row = side.rows.first_from(low, row)?;
        Some(Asked { vertex: w, row })
    }

    /// Lets the node of a claim lead to the nodes of the claims of a level that it needs, and puts these claims on the board.
    fn lead(&mut self, side: &mut Side, node: u32, level: u32) -> Result<(), AllocError> {
        let claim = self.board.claim(node);
        let state = side.state(claim.vertex);
        let low = side.rows.low(claim.row, state.priority());
        self.board.begin(state.priority(), state.is_mine())?;
        if low == ZEROS {
            return self.board.lead_to(WON);
        }
        let successors = side.successors(claim.vertex);
        if state.is_mine() {
            self.lead_to_all(side, node, successors, low, level)
        } else {
            self.lead_to_some(side, node, successors, low, level)
        }
    }

    /// Lets a node lead to the claims of all successors.
    fn lead_to_all(
        &mut self,
        side: &Side,
        node: u32,
        successors: &[u32],
        low: u32,
        level: u32,
    ) -> Result<(), AllocError> {
        let mut end = WON;
        for w in successors {
            if is_marked(&self.is_settled, *w) {
                if side.rows.is_under(side.row(*w), low) {
                    self.board.lead_to(LOST)?;
                }
                continue;
            }
            match self.need(side, *w, low, level) {
                None => self.board.lead_to(LOST)?,
                Some(asked) if is_beyond(side, asked, level) => {
                    self.beyond.push(Beyond { node, asked })?;
                }
                Some(asked) => {
                    end = self.board.node(asked)?;
                    self.board.lead_to(end)?;
                }
            }
        }
        if end < FIRST {
            self.board.lead_to(end)?;
        }
        Ok(())
    }

    /// Lets a node lead to the claims of some successors. If one of these needs no claim of the node's level, that one is enough: a settled
    /// one first, and else one of another level.
    fn lead_to_some(
        &mut self,
        side: &Side,
        node: u32,
        successors: &[u32],
        low: u32,
        level: u32,
    ) -> Result<(), AllocError> {
        self.needed.clear();
        let mut out = None;
        for w in successors {
            if is_marked(&self.is_settled, *w) {
                if !side.rows.is_under(side.row(*w), low) {
                    return self.board.lead_to(WON);
                }
            } else if out.is_none()
                && let Some(asked) = self.need(side, *w, low, level)
            {
                if is_beyond(side, asked, level) {
                    out = Some(asked);
                } else {
                    self.needed.push(asked)?;
                }
            }
        }
        if let Some(asked) = out {
            self.beyond.push(Beyond { node, asked })?;
            return self.board.lead_to(WON);
        }
        let mut end = LOST;
        for asked in &self.needed {
            end = self.board.node(*asked)?;
            self.board.lead_to(end)?;
        }
        if end < FIRST {
            self.board.lead_to(end)?;
        }
        Ok(())
    }

    /// Plays the game of some claims and of the claims of a level that they need. Returns the claims that show them, and asks for claims of
    /// other levels. `None` if winners aren't found.
    fn play(
        &mut self,
        alloc: Global,
        side: &mut Side,
        claims: &[Asked],
        level: u32,
        levels: &mut Levels,
    ) -> Result<Option<Vec<RowClaim>>, AllocError> {
        self.beyond.clear();
        self.board.clear()?;
        for claim in claims {
            self.board.node(*claim)?;
        }
        let end = self.board.len();
        for node in FIRST..NONE {
            if node >= self.board.len() {
                break;
            }
            self.lead(side, node, level)?;
        }
        let played = self.board.play(alloc)?;
        if !played.winners.is_ordered {
            return Ok(None);
        }
        let is_kept = played.kept(alloc, end)?;
        for Beyond { node, asked } in &self.beyond {
            if is_marked(&is_kept, *node) {
                levels.ask(side, *asked)?;
            }
        }
        Ok(Some(self.board.order(alloc, &played.winners, &is_kept)?))
    }

    /// Appends the claims of the vertices that aren't settled to `order`, level by level, the greatest level first. Returns false if
    /// winners aren't found.
    fn play_levels(
        &mut self,
        alloc: Global,
        side: &mut Side,
        levels: &mut Levels,
        order: &mut Vec<RowClaim>,
    ) -> Result<bool, AllocError> {
        let mut blocks = Vec::new(alloc);
        for number in 0..count(levels.priorities.len()) {
            let level = at(&levels.priorities, number);
            let asked = levels.take(alloc, number);
            if asked.is_empty() {
                continue;
            }
            match self.play(alloc, side, &asked, level, levels)? {
                Some(block) => blocks.push(block)?,
                None => return Ok(false),
            }
        }
        for block in blocks.iter().rev() {
            order.extend_from_slice(block)?;
        }
        Ok(true)
    }
}

/// Returns claims of the own rows of the vertices that aren't settled.
fn unsettled(alloc: Global, side: &Side, is_settled: &[bool]) -> Result<Vec<Asked>, AllocError> {
    let mut open = Vec::new(alloc);
    for vertex in 0..side.len() {
        if !is_marked(is_settled, vertex) {
            let row = side.row(vertex);
            open.push(Asked { vertex, row })?;
        }
    }
    Ok(open)
}

/// Whether a claim isn't of the given level.
fn is_beyond(side: &Side, asked: Asked, level: u32) -> bool {
    level != ALL && side.rows.node(asked.row).priority != level
}

/// Sets the least rows, from a closed map, which is the least one already if `is_least`. Returns claims of them, or `None` if winners
/// aren't found.
pub fn finish(
    side: &mut Side<'_>,
    alloc: Global,
    is_least: bool,
) -> Result<Option<Vec<RowClaim>>, AllocError> {
    let mut is_settled = vec![in alloc; true; side.len() as usize]?;
    let mut order = attract(side, alloc, &mut is_settled)?;
    let open = unsettled(alloc, side, &is_settled)?;
    if open.is_empty() {
        return Ok(Some(order));
    }
    let mut justifying = Justifying::new(alloc, side, is_settled)?;
    let Some(shown) = justifying.settle(alloc, side, &open)? else {
        return Ok(None);
    };
    order.extend_from_slice(&shown)?;
    if !is_least && !justifying.set_rest(alloc, side)? {
        return Ok(None);
    }
    let open = unsettled(alloc, side, &justifying.is_settled)?;
    if open.is_empty() {
        return Ok(Some(order));
    }
    let mut levels = Levels::new(alloc, side)?;
    for claim in &open {
        levels.ask(side, *claim)?;
    }
    if !justifying.play_levels(alloc, side, &mut levels, &mut order)? {
        return Ok(None);
    }
    Ok(Some(order))
}

/// Lowers a closed map to the least one. Returns false if winners aren't found.
pub fn lower_to_least(side: &mut Side<'_>, alloc: Global) -> Result<bool, AllocError> {
    let mut is_settled = vec![in alloc; true; side.len() as usize]?;
    attract(side, alloc, &mut is_settled)?;
    let open = unsettled(alloc, side, &is_settled)?;
    if open.is_empty() {
        return Ok(true);
    }
    let mut justifying = Justifying::new(alloc, side, is_settled)?;
    Ok(justifying.settle(alloc, side, &open)?.is_some() && justifying.set_rest(alloc, side)?)
}
