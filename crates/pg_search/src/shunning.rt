//! Strategies that shun levels.
//!
//! Where many vertices come to a level with the winner's choices, the winner plays a game on all vertices that come to that level or to one
//! of the next. In this game it loses at the vertices that have one of the levels' priorities. Where it wins, it chooses as it won: it
//! stays in the class without any of the levels, or leaves the class. So these vertices have the component 0 at each of the levels, and
//! need no look there. The more levels, the fewer such vertices: where most are lost, the next game has fewer levels.

use crate::asked::{Asked, Levels};
use crate::board::{FIRST, LOST, WON};
use crate::leveling::{Leveling, Standing};
use pg_search_components::{at, count};
use pg_search_rows::Side;
use std::alloc::{AllocError, Global};

/// At most one in this many vertices may be of the levels.
pub(crate) const FEW: usize = 256;

/// For how many levels the winner keeps its choices after choosing again was of no use, and how many of these are left. Each time there are
/// twice as many, and one more.
#[derive(Clone, Copy)]
pub(crate) struct Pause {
    long: u32,
    left: u32,
}

impl Pause {
    pub const NONE: Pause = Pause { long: 0, left: 0 };

    fn next(self, was_of_use: bool) -> Pause {
        if was_of_use {
            return Pause::NONE;
        }
        let long = self.long.saturating_mul(2).saturating_add(1);
        Pause { long, left: long }
    }
}

impl Leveling<'_> {
    /// Lets the winner choose again until few vertices come to a level, which then begins again.
    pub fn shun(
        &mut self,
        alloc: Global,
        side: &mut Side,
        levels: &Levels,
        number: u32,
        asked: &[Asked],
    ) -> Result<(), AllocError> {
        if self.pause.left > 0 {
            self.pause.left -= 1;
            return Ok(());
        }
        let level = self.level;
        let mut is_less = false;
        for _ in 0..u32::BITS {
            let many = self.reached.len();
            let most = many / self.part.max(1);
            if asked.len() > most {
                break;
            }
            self.take_levels(side, levels, number, asked, most)?;
            self.choose_anew(alloc, side)?;
            self.begin(side, level, asked)?;
            self.go_back(side)?;
            is_less = self.reached.len() < many / 2;
            if is_less {
                break;
            }
            self.part = self.part.saturating_mul(4);
        }
        self.part = (self.part / 4).max(FEW);
        self.pause = self.pause.next(is_less);
        Ok(())
    }

    /// Takes in the vertices that come to a level and to the next ones, as long as the levels have few vertices.
    fn take_levels(
        &mut self,
        side: &mut Side,
        levels: &Levels,
        number: u32,
        asked: &[Asked],
        most: usize,
    ) -> Result<(), AllocError> {
        self.begin(side, self.level, &[])?;
        self.take_level(side, asked)?;
        for next in (0..number).rev() {
            if self.reached.len() > most {
                break;
            }
            self.take_level(side, levels.asked(next))?;
        }
        self.go_back(side)
    }

    /// Takes in the vertices that are asked for at a level.
    fn take_level(&mut self, side: &Side, asked: &[Asked]) -> Result<(), AllocError> {
        for it in asked {
            if !self.is_in(it.vertex) {
                let above = self.level.saturating_add(1);
                let class = side.rows.cut(side.row(it.vertex), above);
                self.reach(side, it.vertex, class, Standing::Rises)?;
            }
        }
        Ok(())
    }

    /// Lets the winner choose as it wins the game without the levels that were taken in.
    fn choose_anew(&mut self, alloc: Global, side: &mut Side) -> Result<(), AllocError> {
        self.board.clear()?;
        for place in 0..count(self.reached.len()) {
            let vertex = at(&self.reached, place);
            let member = self.member(vertex);
            if member.standing == Standing::Loose {
                let row = member.class;
                self.board.node(Asked { vertex, row })?;
            }
        }
        for node in FIRST..self.board.len() {
            self.lead(side, node)?;
        }
        let played = self.board.play(alloc)?;
        for node in &played.winners.of_even {
            let v = self.board.claim(*node).vertex;
            let chosen = at(&played.winners.choice, *node);
            if side.state(v).is_mine() && chosen >= FIRST {
                side.set_to(v, self.board.claim(chosen).vertex);
            }
        }
        Ok(())
    }

    /// Lets the node of a vertex lead to the nodes of its successors in the class.
    fn lead(&mut self, side: &mut Side, node: u32) -> Result<(), AllocError> {
        let Asked { vertex, row } = self.board.claim(node);
        let state = side.state(vertex);
        let is_mine = state.is_mine();
        self.board.begin(state.priority(), is_mine)?;
        let mut end = if is_mine { WON } else { LOST };
        for w in side.successors(vertex) {
            if side.rows.cut(side.row(*w), self.level.saturating_add(1)) != row {
                continue;
            }
            if self.is_in(*w) && self.member(*w).standing == Standing::Loose {
                end = self.board.node(Asked { vertex: *w, row })?;
                self.board.lead_to(end)?;
            } else if is_mine && !self.is_in(*w) {
                side.set_to(vertex, *w);
                return self.board.lead_to(LOST);
            } else if !is_mine && self.is_in(*w) {
                return self.board.lead_to(WON);
            }
        }
        if end < FIRST {
            self.board.lead_to(end)?;
        }
        Ok(())
    }
}
