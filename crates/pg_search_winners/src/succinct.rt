//! Succinct progress measures (Marcin Jurdziński and Ranko Lazić, Succinct Progress Measures for Solving Parity Games, 2017), on a part
//! of the graph.
//!
//! A measure of a player has a list of bits for each priority of the opponent, the greatest first. All its lists together have no
//! more bits than the number of vertices has in binary. Where two lists part, 0 is less than the end of the list, and that is less
//! than 1. So there are quasi-polynomially many measures. They are lifted from the least one on. A player wins the vertices that
//! aren't lifted to top.

use crate::graph::Graph;
use crate::table::{FIRST, RegionTable, WAITING};
use pg_search_components::{NONE, at, between, count, put};
use std::alloc::{AllocError, Global};

/// Every number of the measure top.
const TOP: u32 = u32::MAX;

/// A measure consists of `width` numbers. A bit 0 of list k is the number k, a bit 1 is twice the number of lists minus k, and
/// after the last bit there is the number of lists. So measures are compared number by number.
#[derive(Drop)]
pub(crate) struct Succinct<'a> {
    graph: &'a Graph,
    /// The place of each vertex in the part; its priority, numbered so that neighbours of one parity share a number; and a number
    /// greater than all of these.
    places: Vec<u32>,
    priorities: Vec<u32>,
    end: u32,
    /// How many numbers a measure has.
    width: u32,
    /// The measures of Even by places, and then the measures of Odd.
    numbers: Vec<u32>,
    /// The measure that a vertex gets next.
    next: Vec<u32>,
}

impl<'a> Succinct<'a> {
    /// Begins with the least measures of a part, whose vertices are given by rising priority.
    pub fn new(alloc: Global, graph: &'a Graph, part: &[u32]) -> Result<Succinct<'a>, AllocError> {
        let mut places = vec![in alloc; NONE; graph.len() as usize]?;
        for (place, v) in part.iter().enumerate() {
            put(&mut places, *v, count(place));
        }
        let mut priorities = vec![in alloc; 0; graph.len() as usize]?;
        let end = graph.compress(part, &mut priorities);
        let width = u32::BITS.saturating_sub(count(part.len()).leading_zeros());
        let many = part.len().saturating_mul(2);
        Ok(Succinct {
            graph,
            places,
            priorities,
            end,
            width,
            numbers: vec![in alloc; 0; many.saturating_mul(width as usize)]?,
            next: Vec::new(alloc),
        })
    }

    /// Returns where the measure of a vertex begins.
    fn place(&self, player: u32, v: u32) -> u32 {
        let half = count(self.numbers.len() / 2);
        let place = at(&self.places, v).saturating_mul(self.width);
        place.saturating_add(half.saturating_mul(player))
    }

    fn measure(&self, player: u32, v: u32) -> &[u32] {
        let place = self.place(player, v);
        between(&self.numbers, place, place.saturating_add(self.width))
    }

    /// Returns the successor of a vertex that is best for its owner.
    fn best(&self, table: &RegionTable, player: u32, v: u32) -> u32 {
        let mut best = NONE;
        for w in self.graph.successors(v) {
            let is_less = self.measure(player, *w) < self.measure(player, best);
            let is_better = best == NONE || is_less == (self.graph.owner(v) == player);
            if table.region(*w) >= WAITING && is_better {
                best = *w;
            }
        }
        best
    }

    /// Sets the next measure to a number from a place on.
    fn fill(&mut self, from: u32, number: u32) {
        for place in from..self.width {
            put(&mut self.next, place, number);
        }
    }

    /// Raises the next measure to the least one that isn't less in the first lists, and that is greater there if `rises`.
    fn step(&mut self, lists: u32, first: u32, rises: bool) {
        let mut end = 0u32;
        for bit in &self.next {
            if (*bit).min(lists.saturating_mul(2).saturating_sub(*bit)) < first {
                end = end.saturating_add(1);
            }
        }
        if !rises {
            return self.fill(end, first);
        }
        for list in (0..first).rev() {
            let one = lists.saturating_mul(2).saturating_sub(list);
            if end < self.width {
                put(&mut self.next, end, one);
                return self.fill(end.saturating_add(1), list);
            }
            for _ in 0..self.width {
                if at(&self.next, end.wrapping_sub(1)) != one {
                    break;
                }
                end = end.saturating_sub(1);
            }
            if at(&self.next, end.wrapping_sub(1)) == list {
                return self.fill(end.saturating_sub(1), list.saturating_add(1));
            }
        }
        self.fill(0, TOP);
    }

    /// Lifts a vertex. Returns whether it rises.
    fn lift(&mut self, table: &RegionTable, player: u32, v: u32) -> Result<bool, AllocError> {
        let from = self.place(player, self.best(table, player, v));
        let to = self.place(player, v);
        self.next.clear();
        for place in 0..self.width {
            let number = at(&self.numbers, from.saturating_add(place));
            self.next.push(number)?;
        }
        let lists = self.end.saturating_add(player) / 2;
        let priority = at(&self.priorities, v);
        let below = priority.saturating_add(player) / 2;
        if at(&self.next, 0) != TOP {
            self.step(lists, lists.saturating_sub(below), priority % 2 != player);
        }
        let mut rises = false;
        for place in 0..self.width {
            let number = at(&self.next, place);
            rises |= at(&self.numbers, to.saturating_add(place)) != number;
            put(&mut self.numbers, to.saturating_add(place), number);
        }
        Ok(rises)
    }

    /// Continues with the part until nothing rises any more, and then puts each vertex into its winner's region. Returns false if
    /// that takes more than `looks` looks.
    pub fn run(
        &mut self,
        table: &mut RegionTable,
        part: &[u32],
        looks: u64,
    ) -> Result<bool, AllocError> {
        let most = table.looks.saturating_add(looks);
        let mut rises = true;
        for _ in 0..u64::MAX {
            if !rises || table.looks > most {
                break;
            }
            rises = false;
            for v in part {
                let edges = self.graph.successors(*v).len();
                table.look(edges.saturating_mul(self.width as usize));
                rises |= self.lift(table, 0, *v)?;
                rises |= self.lift(table, 1, *v)?;
            }
        }
        for v in part {
            let winner = u32::from(at(self.measure(0, *v), 0) == TOP);
            let is_mine = self.graph.owner(*v) == winner;
            let choice = self.best(table, winner, *v);
            if !rises {
                put(&mut table.choices, *v, if is_mine { choice } else { NONE });
                table.mark(*v, FIRST.saturating_add(winner));
            }
        }
        Ok(!rises)
    }
}
