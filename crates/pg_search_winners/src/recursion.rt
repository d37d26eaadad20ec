//! Zielonka's recursion (Theoretical Computer Science 200, 1998) without recursive calls, on a part of the graph.
//!
//! A level takes the free vertices of the greatest priority, its heads, and what they attract for the player of that priority. It
//! then does the same with the next priorities, as long as they belong to the same player. What is left is the game of the next
//! level. If the opponent wins nothing there that attracts more of the level, the player wins the level. Otherwise that is taken
//! out, and the level begins again with what is left.
//!
//! The game of the next level then doesn't begin from nothing. What the player won there by its choices is still won where it leads
//! only to such vertices: it is kept, with what it attracts, and only the rest is searched again.
//!
//! Each list that is won stands in an order that shows it: the heads, what they attract, and then what is won in the next level.
//! What an opponent takes out of a level stands after what it took before. Edges lead to earlier places, except those of heads;
//! after a head nothing greater stands up to where its edges lead.

use crate::graph::Graph;
use crate::lists::{Links, List, Sides};
use crate::table::{Attraction, FIRST, FREE, RegionTable};
use pg_search_components::{NONE, at, count, from, put};
use std::alloc::{AllocError, Global};
use std::mem;

/// A level that has begun.
#[derive(Clone, Copy)]
struct RecursionLevel {
    player: u32,
    /// The least region of its game: the region of what it attracts for Even. The remainder of a region by 2 is the player whose
    /// region it is.
    base: u32,
    /// The least priority of its heads.
    least: u32,
    /// Where its vertices begin in the list of all attracted vertices, and its heads in the list of heads.
    attracted: usize,
    heads: usize,
    /// Its part of the list of vertices by priority, and the place after its first head there.
    from: u32,
    to: u32,
    place: u32,
    /// What was won in it so far.
    won: Sides,
}

impl RecursionLevel {
    /// Returns the region of what it attracts.
    #[inline(always)]
    fn mark(&self) -> u32 {
        self.base.saturating_add(self.player)
    }

    /// Returns the least region of the game above it.
    #[inline(always)]
    fn above(&self) -> u32 {
        self.base.saturating_add(2)
    }

    /// Returns the region of what its opponent takes out of it.
    #[inline(always)]
    fn mark_of_taken(&self) -> u32 {
        self.base.saturating_sub(2).saturating_add(self.player ^ 1)
    }

    /// Returns a successor of a vertex in the game of this level that a player has, or `NONE`.
    #[inline(always)]
    fn choice(&self, graph: &Graph, table: &mut RegionTable, v: u32, player: u32) -> u32 {
        let row = graph.successors(v);
        table.look(row.len());
        for w in row {
            let region = table.region(*w);
            if region >= self.base && region % 2 == player {
                return *w;
            }
        }
        NONE
    }
}

/// How much greater the least region of a level is than that of any level before it.
const STEP: u32 = 4;

#[derive(Drop)]
pub(crate) struct Recursion {
    /// Vertices by rising priority: those of the part, and after them those of levels that began again with few vertices.
    order: Vec<u32>,
    /// The number of vertices in the part.
    many: usize,
    /// Where the vertices that the next level may take begin and end in the order, and the place after the next of them.
    from: u32,
    to: u32,
    place: u32,
    levels: Vec<RecursionLevel>,
    /// The least region of the last level that began.
    base: u32,
    /// The vertices that all levels attracted, and the heads among them.
    attracted: Vec<u32>,
    heads: Vec<u32>,
    /// The vertices that a level's opponent takes, or that are attracted to what is kept.
    taken: Vec<u32>,
    /// The vertices that are searched again.
    free: Vec<u32>,
    links: Links,
    /// What was won above the last level, and whether that is all that can be won there.
    won: Sides,
    is_ending: bool,
}

impl Recursion {
    pub fn new(alloc: Global, vertices: u32) -> Result<Recursion, AllocError> {
        Ok(Recursion {
            order: Vec::new(alloc),
            many: 0,
            from: 0,
            to: 0,
            place: 0,
            levels: Vec::new(alloc),
            base: FIRST,
            attracted: Vec::new(alloc),
            heads: Vec::new(alloc),
            taken: Vec::new(alloc),
            free: Vec::new(alloc),
            links: Links::new(alloc, vertices)?,
            won: Sides::EMPTY,
            is_ending: false,
        })
    }

    /// Returns the vertex after a given one in its list.
    pub fn next(&self, v: u32) -> u32 {
        self.links.next(v)
    }

    /// Begins with free vertices, which are given by rising priority.
    pub fn begin(&mut self, vertices: &[u32]) -> Result<(), AllocError> {
        self.order.clear();
        self.order.extend_from_slice(vertices)?;
        self.restart();
        Ok(())
    }

    /// Begins with free vertices, which are given by rising priority, in a list that isn't needed elsewhere until the recursion
    /// gives up.
    pub fn begin_with(&mut self, vertices: Vec<u32>) {
        self.order = vertices;
        self.restart();
    }

    /// Begins with all vertices of the order.
    fn restart(&mut self) {
        for v in &self.order {
            self.links.forget(*v);
        }
        self.from = 0;
        self.to = count(self.order.len());
        self.many = self.order.len();
        self.place = self.to;
        self.levels.clear();
        self.base = FIRST;
        self.attracted.clear();
        self.heads.clear();
        self.won = Sides::EMPTY;
        self.is_ending = false;
    }

    /// Returns the vertices that it began with, by rising priority.
    pub fn give_up(&mut self, alloc: Global) -> Vec<u32> {
        let mut vertices = mem::replace(&mut self.order, Vec::new(alloc));
        vertices.truncate(self.many);
        vertices
    }

    /// Frees everything but the lists that were won.
    pub fn let_go(&mut self, alloc: Global) {
        self.order = Vec::new(alloc);
        self.attracted = Vec::new(alloc);
        self.heads = Vec::new(alloc);
        self.taken = Vec::new(alloc);
        self.free = Vec::new(alloc);
    }

    /// Returns what each player wins of the vertices that it began with. Returns `None` if no regions are left, or if that takes
    /// more than `looks` looks, after which it can continue.
    pub fn run(
        &mut self,
        graph: &Graph,
        table: &mut RegionTable,
        looks: u64,
    ) -> Result<Option<Sides>, AllocError> {
        let most = table.looks.saturating_add(looks);
        for _ in 0..u64::MAX {
            if table.looks > most || self.base >= FREE - 2 * STEP {
                return Ok(None);
            }
            if !self.is_ending && self.next_head(table) != NONE {
                self.descend(graph, table)?;
                continue;
            }
            let Some(level) = self.levels.pop() else {
                break;
            };
            self.end(graph, table, level)?;
        }
        Ok(Some(self.won))
    }

    /// Returns the free vertex of the greatest priority, or `NONE`.
    fn next_head(&mut self, table: &mut RegionTable) -> u32 {
        let before = self.place;
        let mut head = NONE;
        for place in (self.from..before).rev() {
            let v = at(&self.order, place);
            if table.region(v) == FREE {
                head = v;
                break;
            }
            self.place = place;
        }
        table.look(before.saturating_sub(self.place) as usize);
        head
    }

    /// Begins a level.
    fn descend(&mut self, graph: &Graph, table: &mut RegionTable) -> Result<(), AllocError> {
        self.base = self.base.saturating_add(STEP);
        let level = RecursionLevel {
            player: graph.priority(self.next_head(table)) % 2,
            base: self.base,
            least: 0,
            attracted: self.attracted.len(),
            heads: self.heads.len(),
            from: self.from,
            to: self.to,
            place: self.place,
            won: self.won,
        };
        self.won = Sides::EMPTY;
        self.fill(graph, table, level, FREE)
    }

    /// Takes the heads of a level and what they attract from the regions from `low` on, and puts the level on top of the others.
    fn fill(
        &mut self,
        graph: &Graph,
        table: &mut RegionTable,
        level: RecursionLevel,
        low: u32,
    ) -> Result<(), AllocError> {
        let mut level = level;
        let (player, mark, least) = (level.player, level.mark(), level.least);
        let attraction = Attraction { player, low, mark };
        for _ in 0..u64::MAX {
            let head = self.next_head(table);
            let priority = graph.priority(head);
            if head == NONE || priority % 2 != player || priority < least {
                break;
            }
            level.least = priority;
            let first = self.attracted.len();
            self.take_heads(graph, table, priority, mark)?;
            table.attract(graph, &mut self.attracted, first, attraction)?;
        }
        self.levels.push(level)?;
        Ok(())
    }

    /// Takes the free vertices of the greatest priority.
    fn take_heads(
        &mut self,
        graph: &Graph,
        table: &mut RegionTable,
        priority: u32,
        mark: u32,
    ) -> Result<(), AllocError> {
        for place in (self.from..self.place).rev() {
            let v = at(&self.order, place);
            if graph.priority(v) != priority {
                break;
            }
            self.place = place;
            if table.region(v) == FREE {
                table.mark(v, mark);
                put(&mut table.choices, v, NONE);
                self.attracted.push(v)?;
                self.heads.push(v)?;
            }
        }
        Ok(())
    }

    /// Ends the last level, or begins it again.
    fn end(
        &mut self,
        graph: &Graph,
        table: &mut RegionTable,
        level: RecursionLevel,
    ) -> Result<(), AllocError> {
        let mut level = level;
        let many = self.take(graph, table, &mut level)?;
        self.is_ending = self.taken.len() == many;
        if self.is_ending {
            self.win(graph, table, level);
            return Ok(());
        }
        self.attract_anew(graph, table, level)?;
        self.loosen(graph, table, level, many)?;
        self.keep(graph, table, level)?;
        self.list(graph, level)
    }

    /// Gives the opponent of a level what it won above it, and what that attracts of the level. The latter is in `taken`, after
    /// some of the former; returns how many these are.
    fn take(
        &mut self,
        graph: &Graph,
        table: &mut RegionTable,
        level: &mut RecursionLevel,
    ) -> Result<usize, AllocError> {
        let opponent = level.player ^ 1;
        let piece = self.won.of(opponent);
        let mut many = 0;
        self.taken.clear();
        if (piece.len as usize) < self.attracted.len().saturating_sub(level.attracted) {
            self.take_list(table, piece, level.mark_of_taken())?;
            many = self.taken.len();
        } else {
            self.find_lost(graph, table, *level)?;
            if !self.taken.is_empty() {
                self.leave_behind(table, level, piece);
            }
            for v in &self.taken {
                table.mark(*v, level.mark_of_taken());
            }
        }
        let attraction = Attraction {
            player: opponent,
            low: level.base,
            mark: level.mark_of_taken(),
        };
        table.attract(graph, &mut self.taken, 0, attraction)?;
        let taken = from(&self.taken, many);
        let mine = self.links.remove(self.won.of(level.player), taken);
        self.won.set(level.player, mine);
        let won = self.links.join(level.won.of(opponent), piece);
        let won = self.links.append(won, taken);
        level.won.set(opponent, won);
        Ok(many)
    }

    /// Takes the vertices of a list, and puts them into a region.
    fn take_list(
        &mut self,
        table: &mut RegionTable,
        list: List,
        mark: u32,
    ) -> Result<(), AllocError> {
        let mut v = list.first;
        for _ in 0..list.len {
            self.taken.push(v)?;
            table.mark(v, mark);
            v = self.links.next(v);
        }
        table.look(self.taken.len());
        Ok(())
    }

    /// Finds the vertices of a level that its opponent attracts at once to what it won above: those that it owns and that lead
    /// there, and heads that lead nowhere else.
    fn find_lost(
        &mut self,
        graph: &Graph,
        table: &mut RegionTable,
        level: RecursionLevel,
    ) -> Result<(), AllocError> {
        let opponent = level.player ^ 1;
        for v in from(&self.heads, level.heads) {
            if graph.owner(*v) != opponent && level.choice(graph, table, *v, level.player) == NONE {
                self.taken.push(*v)?;
            }
        }
        for v in from(&self.attracted, level.attracted) {
            if graph.owner(*v) == opponent {
                let choice = level.choice(graph, table, *v, opponent);
                if choice != NONE {
                    put(&mut table.choices, *v, choice);
                    self.taken.push(*v)?;
                }
            }
        }
        Ok(())
    }

    /// Makes sure that what the opponent of a level won above it is in regions before the level: either that or the rest is marked
    /// anew.
    fn leave_behind(&mut self, table: &mut RegionTable, level: &mut RecursionLevel, piece: List) {
        let block = from(&self.attracted, level.attracted);
        let mine = self.won.of(level.player);
        if (piece.len as usize) < block.len().saturating_add(mine.len as usize) {
            self.mark_list(table, piece, level.mark_of_taken());
            return;
        }
        self.base = self.base.saturating_add(STEP);
        level.base = self.base;
        for v in block {
            table.mark(*v, level.mark());
        }
        table.look(block.len());
        self.mark_list(table, mine, level.above().saturating_add(level.player));
    }

    /// Puts the vertices of a list into a region.
    fn mark_list(&self, table: &mut RegionTable, list: List, mark: u32) {
        let mut v = list.first;
        for _ in 0..list.len {
            table.mark(v, mark);
            v = self.links.next(v);
        }
        table.look(list.len as usize);
    }

    /// Lets a level from which something was taken attract anew, among what it attracted before and what its player won above it.
    fn attract_anew(
        &mut self,
        graph: &Graph,
        table: &mut RegionTable,
        level: RecursionLevel,
    ) -> Result<(), AllocError> {
        self.free.clear();
        for v in from(&self.attracted, level.attracted) {
            if table.region(*v) == level.mark() {
                table.mark(*v, FREE);
                self.free.push(*v)?;
            }
        }
        table.look(self.attracted.len().saturating_sub(level.attracted));
        self.attracted.truncate(level.attracted);
        self.heads.truncate(level.heads);
        self.list(graph, level)?;
        self.fill(graph, table, level, level.above())?;
        let block = from(&self.attracted, level.attracted);
        let mine = self.links.remove(self.won.of(level.player), block);
        self.won.set(level.player, mine);
        self.free.retain(|v| table.region(*v) == FREE);
        Ok(())
    }

    /// Frees what a level's player won above it that may lead to free vertices, or where it chose a vertex that was taken.
    fn loosen(
        &mut self,
        graph: &Graph,
        table: &mut RegionTable,
        level: RecursionLevel,
        many: usize,
    ) -> Result<(), AllocError> {
        for place in many..self.taken.len() {
            let Some(target) = self.taken.get(place).copied() else {
                break;
            };
            self.free_before(graph, table, level, target)?;
        }
        for place in 0..usize::MAX {
            let Some(target) = self.free.get(place).copied() else {
                break;
            };
            self.free_before(graph, table, level, target)?;
        }
        let mine = self.links.remove(self.won.of(level.player), &self.free);
        self.won.set(level.player, mine);
        Ok(())
    }

    /// Frees predecessors of a vertex.
    fn free_before(
        &mut self,
        graph: &Graph,
        table: &mut RegionTable,
        level: RecursionLevel,
        target: u32,
    ) -> Result<(), AllocError> {
        let predecessors = graph.predecessors(target);
        table.look(predecessors.len());
        for v in predecessors {
            let region = table.region(*v);
            if region < level.above() || region == FREE {
                continue;
            }
            if graph.owner(*v) != level.player || at(&table.choices, *v) == target {
                table.mark(*v, FREE);
                self.free.push(*v)?;
            }
        }
        Ok(())
    }

    /// Keeps what a level's player won above it and that isn't free, with what that attracts.
    fn keep(
        &mut self,
        graph: &Graph,
        table: &mut RegionTable,
        level: RecursionLevel,
    ) -> Result<(), AllocError> {
        let player = level.player;
        let mut won = Sides::EMPTY;
        let kept = self.won.of(player);
        self.taken.clear();
        if kept.len > 0 {
            let attraction = Attraction {
                player,
                low: FREE,
                mark: level.above().saturating_add(player),
            };
            for v in &self.free {
                let row = graph.successors(*v);
                table.look(row.len());
                let choice = if graph.owner(*v) == player {
                    let is_kept = |w: &u32| (level.above()..FREE).contains(&table.region(*w));
                    row.iter().copied().find(is_kept)
                } else if table.first_from(row, FREE).is_none() {
                    Some(NONE)
                } else {
                    None
                };
                if let Some(choice) = choice {
                    put(&mut table.choices, *v, choice);
                    table.mark(*v, attraction.mark);
                    self.taken.push(*v)?;
                }
            }
            table.attract(graph, &mut self.taken, 0, attraction)?;
            self.free.retain(|v| table.region(*v) == FREE);
        }
        won.set(player, self.links.append(kept, &self.taken));
        self.won = won;
        Ok(())
    }

    /// Lists the free vertices by rising priority after the order of a level if they are few; otherwise they are found in that
    /// order.
    fn list(&mut self, graph: &Graph, level: RecursionLevel) -> Result<(), AllocError> {
        self.order.truncate(level.to as usize);
        self.from = level.from;
        self.to = level.to;
        self.place = level.place;
        if self.free.len() < (level.place.saturating_sub(level.from) / 16) as usize {
            self.free.sort_unstable_by_key(|v| graph.priority(*v));
            self.order.extend_from_slice(&self.free)?;
            self.from = level.to;
            self.to = count(self.order.len());
            self.place = self.to;
        }
        Ok(())
    }

    /// Gives a level to its player: the heads, what they attract, and what the player won above it.
    fn win(&mut self, graph: &Graph, table: &mut RegionTable, level: RecursionLevel) {
        let player = level.player;
        for head in from(&self.heads, level.heads) {
            if graph.owner(*head) == player {
                let choice = level.choice(graph, table, *head, player);
                put(&mut table.choices, *head, choice);
            }
        }
        let block = from(&self.attracted, level.attracted);
        table.look(block.len());
        let won = self.links.append(level.won.of(player), block);
        let won = self.links.join(won, self.won.of(player));
        self.won = level.won;
        self.won.set(player, won);
        self.attracted.truncate(level.attracted);
        self.heads.truncate(level.heads);
    }
}
