//! The least rows of some vertices, where the rows of all others are known: level by level, the greatest first. The levels are the odd
//! priorities.
//!
//! The class of a vertex is its row above the level. A level has the vertices of no greater priority that come, within their class, to a
//! vertex of the level's priority or to a known vertex with a component there. Values are given out in rounds, from 0 on: to known vertices
//! that have that component, to vertices from which the winner gets to these, and to vertices where it stays without the level's priority,
//! which is a parity game. A vertex of the level's priority has its value one round after a successor.

use crate::asked::{Asked, Levels};
use crate::board::Board;
use crate::shunning::{FEW, Pause};
use pg_search_components::{NONE, at, count, is_marked, item, put};
use pg_search_rows::{Side, ZEROS};
use std::alloc::{AllocError, Global};
use std::mem;

/// If more than one in this many open vertices come to a level, the winner chooses again.
const PART: usize = 4;

/// How a vertex stands in a round: how it is without a value, or `Done`.
#[derive(Clone, Copy, PartialEq, Eq)]
pub(crate) enum Standing {
    /// Its row is known, and so is the value that it will have.
    Known,
    /// The opponent gets from it to a vertex of the level's priority or to a known one.
    Rises,
    /// It rises, and gets its value in the next round.
    Due,
    /// It is no longer known whether it rises.
    Loose,
    /// The opponent doesn't get from it to a vertex of the level's priority or to a known one.
    Stays,
    /// It has its value.
    Done,
}

/// What is known about a vertex in the turn in which it was last taken in.
#[derive(Clone, Copy)]
pub(crate) struct Member {
    turn: u32,
    pub class: u32,
    /// How many of its successors in the class have no value.
    left: u32,
    /// For a loose vertex, of how many more successors it must be known that they rise before it does; `to` is the successor by which a
    /// vertex of the opponent rises.
    need: u32,
    to: u32,
    pub standing: Standing,
    is_mine: bool,
    /// Whether it has the level's priority.
    is_head: bool,
}

impl Member {
    const NOWHERE: Member = Member {
        turn: NONE,
        class: NONE,
        left: 0,
        need: 0,
        to: NONE,
        standing: Standing::Done,
        is_mine: false,
        is_head: false,
    };
}

#[derive(Drop)]
pub(crate) struct Leveling<'m> {
    is_settled: &'m [bool],
    pub board: &'m mut Board,
    members: Vec<Member>,
    /// For each class, the row of the greatest value that was given in it.
    lasts: Vec<u32>,
    pub level: u32,
    /// How often a level was begun.
    turn: u32,
    /// At most one in this many vertices may be of the levels that the winner chooses to stay without.
    pub part: usize,
    pub pause: Pause,
    value: u32,
    /// The vertices of the level, known ones too; `many` counts those without a value that aren't known.
    pub reached: Vec<u32>,
    many: u32,
    /// Known vertices whose component is greater than the value, the greatest first.
    known: Vec<Asked>,
    /// The vertices with a value whose predecessors weren't looked at yet; `later` has those that get their value in the next round.
    fresh: Vec<u32>,
    later: Vec<u32>,
    /// The vertices that rose, and no longer do.
    gone: Vec<u32>,
    loose: Vec<u32>,
    stays: Vec<u32>,
    /// Whether there is another game to play.
    has_changed: bool,
}

impl Leveling<'_> {
    /// Returns a vertex if it is of the level and of a class and has no value.
    #[inline(always)]
    fn left(&self, v: u32, class: u32) -> Option<Member> {
        let member = self.member(v);
        let is_left = member.turn == self.turn && member.class == class;
        if is_left && member.standing != Standing::Done {
            Some(member)
        } else {
            None
        }
    }

    #[inline(always)]
    pub fn member(&self, v: u32) -> Member {
        item(&self.members, v, Member::NOWHERE)
    }

    /// Whether a vertex was taken in.
    #[inline(always)]
    pub fn is_in(&self, v: u32) -> bool {
        self.member(v).turn == self.turn
    }

    /// Begins a level with the vertices that are asked for: those that need rows, and known ones.
    pub fn begin(&mut self, side: &Side, level: u32, asked: &[Asked]) -> Result<(), AllocError> {
        self.level = level;
        self.turn = self.turn.wrapping_add(1);
        self.value = 0;
        self.has_changed = false;
        self.reached.clear();
        self.known.clear();
        self.gone.clear();
        self.loose.clear();
        self.stays.clear();
        self.lasts.resize(side.rows.len() as usize, ZEROS)?;
        for it in asked {
            let class = side.rows.cut(side.row(it.vertex), level.saturating_add(1));
            if is_marked(self.is_settled, it.vertex) {
                self.known.push(*it)?;
                self.reach(side, it.vertex, class, Standing::Known)?;
            } else {
                self.reach(side, it.vertex, class, Standing::Rises)?;
            }
        }
        self.known
            .sort_unstable_by_key(|it| !side.rows.node(it.row).component);
        Ok(())
    }

    /// Takes in a vertex.
    pub fn reach(
        &mut self,
        side: &Side,
        v: u32,
        class: u32,
        standing: Standing,
    ) -> Result<(), AllocError> {
        let state = side.state(v);
        let member = Member {
            turn: self.turn,
            class,
            standing,
            is_mine: state.is_mine(),
            is_head: state.priority() == self.level,
            ..Member::NOWHERE
        };
        put(&mut self.members, v, member);
        put(&mut self.lasts, class, class);
        self.reached.push(v)?;
        Ok(())
    }

    /// Takes in the vertices that come, within their class, to those that are there, except those that have the value 0 in any case.
    pub fn go_back(&mut self, side: &mut Side) -> Result<(), AllocError> {
        for place in 0..usize::MAX {
            let Some(w) = self.reached.get(place).copied() else {
                break;
            };
            side.look_ahead(&self.reached, place);
            let class = self.member(w).class;
            for v in side.predecessors(w) {
                let state = side.state(*v);
                if state.row == class
                    && (!state.is_mine() || state.to == w)
                    && state.priority() <= self.level
                    && !self.is_in(*v)
                    && !is_marked(self.is_settled, *v)
                {
                    self.reach(side, *v, class, Standing::Loose)?;
                }
            }
        }
        Ok(())
    }

    /// Finds the vertices that have a value without any other vertex of the level, and those that are loose.
    fn find_first(&mut self, side: &mut Side) -> Result<(), AllocError> {
        self.many = 0;
        for place in 0..count(self.reached.len()) {
            let v = at(&self.reached, place);
            let mut member = self.member(v);
            if member.standing == Standing::Known {
                continue;
            }
            let mut outside = NONE;
            for w in side.successors(v) {
                let other = self.member(*w);
                if other.turn == self.turn {
                    member.left = member
                        .left
                        .saturating_add((other.class == member.class) as u32);
                } else if side.rows.cut(side.row(*w), self.level.saturating_add(1))
                    == member.class
                {
                    outside = *w;
                }
            }
            put(&mut self.members, v, member);
            self.many = self.many.saturating_add(1);
            if member.standing == Standing::Loose {
                self.loose.push(v)?;
            }
            let leads_out = member.is_mine && outside != NONE;
            if leads_out {
                side.set_to(v, outside);
            }
            if leads_out || member.left == 0 {
                self.give(side, v)?;
            }
        }
        Ok(())
    }

    /// Gives a vertex the value; a vertex of the level's priority gets it one round later.
    fn give(&mut self, side: &mut Side, v: u32) -> Result<(), AllocError> {
        let mut member = self.member(v);
        if member.standing == Standing::Rises && member.is_head {
            member.standing = Standing::Due;
            put(&mut self.members, v, member);
            self.later.push(v)?;
            return Ok(());
        }
        match member.standing {
            Standing::Done => return Ok(()),
            Standing::Known | Standing::Rises | Standing::Due => self.gone.push(v)?,
            Standing::Stays => self.has_changed = true,
            Standing::Loose => {}
        }
        if member.standing != Standing::Known {
            self.many = self.many.saturating_sub(1);
            let row = self.row(side, member.class)?;
            side.set_row(v, row);
        }
        member.standing = Standing::Done;
        put(&mut self.members, v, member);
        self.fresh.push(v)?;
        Ok(())
    }

    /// Returns the row of the value in a class.
    fn row(&mut self, side: &mut Side, class: u32) -> Result<u32, AllocError> {
        let mut row = at(&self.lasts, class);
        let has = if row == class {
            0
        } else {
            side.rows.node(row).component
        };
        for _ in has..self.value {
            row = side.rows.step(row, self.level)?;
        }
        put(&mut self.lasts, class, row);
        Ok(row)
    }

    /// Gives the value to the vertices from which the winner gets to those that have it.
    fn spread(&mut self, side: &mut Side) -> Result<(), AllocError> {
        for place in 0..usize::MAX {
            let Some(w) = self.fresh.get(place).copied() else {
                break;
            };
            side.look_ahead(&self.fresh, place);
            let class = self.member(w).class;
            for v in side.predecessors(w) {
                let Some(mut member) = self.left(*v, class) else {
                    continue;
                };
                if member.standing == Standing::Known || member.standing == Standing::Due {
                    continue;
                }
                if member.is_mine {
                    side.set_to(*v, w);
                    self.give(side, *v)?;
                    continue;
                }
                member.left = member.left.saturating_sub(1);
                put(&mut self.members, *v, member);
                if member.left == 0 {
                    self.give(side, *v)?;
                }
            }
        }
        self.fresh.clear();
        Ok(())
    }

    /// Finds the vertices that rose by others that no longer do, and makes them loose.
    fn loosen(&mut self, side: &mut Side) -> Result<(), AllocError> {
        for _ in 0..u64::MAX {
            let Some(w) = self.gone.pop() else {
                break;
            };
            let class = self.member(w).class;
            for v in side.predecessors(w) {
                if let Some(mut member) = self.left(*v, class)
                    && member.standing == Standing::Rises
                    && !member.is_head
                    && (member.is_mine || member.to == w)
                {
                    member.standing = Standing::Loose;
                    put(&mut self.members, *v, member);
                    self.loose.push(*v)?;
                    self.gone.push(*v)?;
                }
            }
        }
        Ok(())
    }

    /// Finds which loose vertices still rise; the rest stay.
    fn raise(&mut self, side: &mut Side) -> Result<(), AllocError> {
        for place in 0..count(self.loose.len()) {
            let v = at(&self.loose, place);
            self.look_up(side, v)?;
        }
        for _ in 0..u64::MAX {
            let Some(w) = self.gone.pop() else {
                break;
            };
            let mut risen = self.member(w);
            risen.standing = Standing::Rises;
            put(&mut self.members, w, risen);
            for v in side.predecessors(w) {
                if let Some(mut member) = self.left(*v, risen.class)
                    && member.standing == Standing::Loose
                    && member.need > 0
                {
                    member.need -= 1;
                    member.to = w;
                    put(&mut self.members, *v, member);
                    if member.need == 0 {
                        self.gone.push(*v)?;
                    }
                }
            }
        }
        for _ in 0..u64::MAX {
            let Some(v) = self.loose.pop() else {
                break;
            };
            let mut member = self.member(v);
            if member.standing == Standing::Loose {
                member.standing = Standing::Stays;
                put(&mut self.members, v, member);
                self.stays.push(v)?;
                self.has_changed = true;
            }
        }
        Ok(())
    }

    /// Finds how a loose vertex could rise.
    fn look_up(&mut self, side: &mut Side, v: u32) -> Result<(), AllocError> {
        let mut member = self.member(v);
        if member.standing != Standing::Loose {
            return Ok(());
        }
        member.need = 0;
        member.to = NONE;
        for w in side.successors(v) {
            match self.left(*w, member.class) {
                None => {}
                Some(other)
                    if other.standing == Standing::Loose || other.standing == Standing::Stays => {
                    member.need = member.need.saturating_add(1);
                }
                Some(_) => member.to = *w,
            }
        }
        if !member.is_mine {
            member.need = (member.to == NONE) as u32;
        }
        put(&mut self.members, v, member);
        if member.need == 0 {
            self.gone.push(v)?;
        }
        Ok(())
    }

    /// Plays the game of the vertices that stay: those that the winner wins have the value. Returns false if the game's winners aren't
    /// found.
    fn play(&mut self, alloc: Global, side: &mut Side) -> Result<bool, AllocError> {
        self.board.clear()?;
        let stays = mem::replace(&mut self.stays, Vec::new(alloc));
        for v in &stays {
            let member = self.member(*v);
            if member.standing == Standing::Stays {
                self.stays.push(*v)?;
                self.board.node(Asked {
                    vertex: *v,
                    row: member.class,
                })?;
            }
        }
        for place in 0..count(self.stays.len()) {
            let v = at(&self.stays, place);
            let state = side.state(v);
            let row = self.member(v).class;
            self.board.begin(state.priority(), state.is_mine())?;
            for w in side.successors(v) {
                if let Some(member) = self.left(*w, row)
                    && member.standing == Standing::Stays
                {
                    let node = self.board.node(Asked { vertex: *w, row })?;
                    self.board.lead_to(node)?;
                }
            }
        }
        let played = self.board.play(alloc)?;
        for node in &played.winners.of_even {
            let v = self.board.claim(*node).vertex;
            if side.state(v).is_mine() {
                let chosen = at(&played.winners.choice, *node);
                side.set_to(v, self.board.claim(chosen).vertex);
            }
            self.give(side, v)?;
        }
        self.spread(side)?;
        self.has_changed = false;
        Ok(played.winners.is_ordered)
    }

    /// Returns the least component of a known vertex that has no value yet, or `NONE`.
    fn next_value(&self, side: &Side) -> u32 {
        match self.known.last() {
            Some(it) => side.rows.node(it.row).component,
            None => NONE,
        }
    }

    /// Goes through the rounds of a level. Returns false if they end too early.
    fn run(&mut self, alloc: Global, side: &mut Side) -> Result<bool, AllocError> {
        self.find_first(side)?;
        for _ in 0..u64::MAX {
            for _ in 0..u64::MAX {
                if self.next_value(side) > self.value {
                    break;
                }
                if let Some(known) = self.known.pop() {
                    self.give(side, known.vertex)?;
                }
            }
            self.spread(side)?;
            if self.many == 0 {
                return Ok(true);
            }
            self.loosen(side)?;
            self.raise(side)?;
            if self.has_changed && !self.play(alloc, side)? {
                return Ok(false);
            }
            if self.later.is_empty() && self.known.is_empty() {
                break;
            }
            if self.later.is_empty() {
                self.value = self.next_value(side);
            } else {
                self.value = self.value.saturating_add(1);
            }
            let later = mem::replace(&mut self.later, Vec::new(alloc));
            for v in &later {
                self.give(side, *v)?;
            }
        }
        Ok(self.many == 0)
    }
}

/// Lowers the rows of some vertices to the least ones. All other vertices that the winner wins are settled: their rows are the least. The
/// map is closed. Returns false if winners aren't found.
pub fn set_by_levels(
    side: &mut Side<'_>,
    alloc: Global,
    open: &[Asked],
    is_settled: &[bool],
    board: &mut Board,
) -> Result<bool, AllocError> {
    let mut levels = Levels::new(alloc, side)?;
    for Asked { vertex, .. } in open {
        side.set_row(*vertex, ZEROS);
    }
    for Asked { vertex, .. } in open {
        let (vertex, row) = (*vertex, ZEROS);
        levels.put(side.state(vertex).priority(), Asked { vertex, row })?;
        for w in side.successors(vertex) {
            if is_marked(is_settled, *w) {
                levels.ask_next(side, Asked { vertex: *w, row })?;
            }
        }
    }
    let mut leveling = Leveling {
        is_settled,
        board,
        members: vec![in alloc; Member::NOWHERE; side.len() as usize]?,
        lasts: Vec::new(alloc),
        level: 0,
        turn: 0,
        part: FEW,
        pause: Pause::NONE,
        value: 0,
        reached: Vec::new(alloc),
        many: 0,
        known: Vec::new(alloc),
        fresh: Vec::new(alloc),
        later: Vec::new(alloc),
        gone: Vec::new(alloc),
        loose: Vec::new(alloc),
        stays: Vec::new(alloc),
        has_changed: false,
    };
    for number in (0..count(levels.priorities.len())).rev() {
        let level = at(&levels.priorities, number);
        let asked = levels.take(alloc, number);
        if asked.is_empty() {
            continue;
        }
        leveling.begin(side, level, &asked)?;
        leveling.go_back(side)?;
        if leveling.reached.len() > open.len() / PART {
            leveling.shun(alloc, side, &levels, number, &asked)?;
        }
        if !leveling.run(alloc, side)? {
            return Ok(false);
        }
        for it in &asked {
            let agrees = |v: &u32| !is_marked(is_settled, *v) && side.row(*v) == it.row;
            let predecessors = side.graph.predecessors(it.vertex);
            if is_marked(is_settled, it.vertex) && predecessors.iter().any(agrees) {
                levels.ask_next(side, *it)?;
            }
        }
    }
    Ok(true)
}
