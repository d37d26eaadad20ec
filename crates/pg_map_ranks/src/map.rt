//! Maps from vertices to ranks.

ghost use Rattle.std.specs.Prelude.{◌≡◌, ◌↔◌, ◌^◌, ◌<◌, length, IsSome, IsTrue};
ghost use Rattle.pg_map.specs.Lines.{AreWithin};
ghost use Rattle.pg_map.specs.Maps.{IsServed, IsClosed};
ghost use Rattle.pg_map_ranks.specs.Ladders.{rank_map};
ghost use Rattle.pg_map_ranks.specs.Mirrors.Blocks.{rank_at, CoversUnder};

use crate::Ladder;
use crate::under::{first_under, has_under, is_under};
use pg_arena::Vertex;
use pg_map::{Lines, Measures, View};
use pg_measure::Bounds;
use std::marker::Model;

/// A map with a rank for each vertex: the number of a row of its ladder, or any number past the last one for top. Contracts see the
/// map of the measures.
#[derive(Drop)]
pub struct RankMap {
    ladder: Ladder,
    ranks: Vec<u32>,
    hints: Vec<u32>,
}

impl Model for RankMap {
    ghost use Rattle.std.specs.Prelude.{◌<◌, ◌^◌, length};
    ghost use Rattle.pg_map.specs.Maps.{MapValue};
    ghost use Rattle.pg_map_ranks.specs.Ladders.{rank_map};

    ghost Value = { MapValue };

    ghost view = { λ m. record { bounds = m.ladder.bounds; measures = rank_map m.ladder.bounds m.ladder.steps m.ranks.items } };

    ghost invariant = { λ m. length m.ranks.items < 2 ^ 32 };
}

impl RankMap {
    /// Makes the map of these ranks. For a vertex of even priority, the hints may name the greatest step of the block that begins
    /// at its row; then the block is found at once, and otherwise step by step.
    pub fn new(ladder: Ladder, ranks: Vec<u32>, hints: Vec<u32>) -> RankMap
        requires { length ranks.items < 2 ^ 32 }
        ensures bounds { result.bounds ≡ ladder.bounds }
        ensures measures { result.measures ≡ rank_map ladder.bounds ladder.steps ranks.items }
    {
        RankMap {
            ladder,
            ranks,
            hints,
        }
    }

    /// Returns the ladder and the ranks.
    #[inline]
    pub fn parts(&self) -> (&Ladder, &[u32])
        ensures bounds { result.0.now.bounds ≡ self.now.bounds }
        ensures measures { self.now.measures ≡ rank_map self.now.bounds result.0.now.steps result.1.now }
        ensures few { length result.1.now < 2 ^ 32 }
    {
        (&self.ladder, &self.ranks)
    }

    /// Whether the map is closed. It looks at each edge once, by comparing two numbers.
    pub fn is_closed<G: Lines>(&self, lines: &G) -> bool
        requires { AreWithin (length self.now.measures) (G.line lines.now) }
        ensures { IsTrue result ↔ IsClosed self.now.bounds (G.line lines.now) self.now.measures }
    {
        for number in 0..self.len() {
            let v = Vertex(number);
            if lines.holds(v) && !self.is_served(lines, v) {
                return false;
            }
        }
        true
    }

    /// Whether a vertex is served.
    fn is_served<G: Lines>(&self, lines: &G, v: Vertex) -> bool
        requires within { AreWithin (length self.now.measures) (G.line lines.now) }
        requires held { IsSome (G.line lines.now v) }
        ensures { IsTrue result ↔ IsServed self.now.bounds (G.line lines.now) self.now.measures v }
    {
        let high = high_at(&self.ladder, &self.ranks, &self.hints, lines.priority(v), v);
        has_under(lines, &self.ranks, v, high)
    }
}

impl Measures for RankMap {
    ghost map = { λ m. m };

    #[inline]
    fn len(&self) -> u32 {
        let _bounds = self.ladder.bounds();
        self.ranks.len() as u32
    }

    #[inline]
    fn bounds(&self) -> &Bounds {
        self.ladder.bounds()
    }

    #[inline]
    fn is_top(&self, v: Vertex) -> bool {
        !self.ladder.is_row(self.ranks[v.0 as usize])
    }

    /// Writes the measure into the room.
    fn row<'a>(&'a self, v: Vertex, room: &'a mut [u32]) -> View<'a> {
        let rank = self.ranks[v.0 as usize];
        if !self.ladder.is_row(rank) {
            return View::Top;
        }
        self.ladder.write_row(rank, room);
        View::List(room)
    }

    #[inline]
    fn serves<G: Lines>(&self, lines: &G, v: Vertex, w: Vertex) -> bool {
        let high = high_at(&self.ladder, &self.ranks, &self.hints, lines.priority(v), v);
        is_under(high, self.ranks[w.0 as usize])
    }

    #[inline]
    fn first_serving<G: Lines>(&self, lines: &G, v: Vertex) -> Option<Vertex> {
        let high = high_at(&self.ladder, &self.ranks, &self.hints, lines.priority(v), v);
        first_under(&self.ranks, lines.successors(v), high)
    }
}

/// Returns the rank below which vertices have measures that the measure of `v` covers at a priority, or `None` if it covers all.
#[inline]
fn high_at(ladder: &Ladder, ranks: &[u32], hints: &[u32], priority: u32, v: Vertex) -> Option<u32>
    requires { v < length ranks.now }
    ensures { CoversUnder ladder.now.bounds ladder.now.steps priority (rank_at ranks.now v) result }
{
    let hint = hints.get(v.0 as usize).copied().unwrap_or(0);
    ladder.high_of(priority, ranks[v.0 as usize], hint)
}
