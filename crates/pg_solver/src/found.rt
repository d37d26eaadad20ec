//! The maps that a solver finds.

use pg_arena::Vertex;
use pg_map::{Lines, MeasureMap, Measures, View};
use pg_map_ranks::RankMap;
use pg_measure::Bounds;

/// A map that the solver found. It is stored as ranks in a ladder, a few numbers for each vertex, or as a row of
/// numbers for each vertex.
#[derive(Drop)]
pub enum Found {
    Ranks(RankMap),
    Rows(MeasureMap),
}

impl Measures for Found {
    ghost use Rattle.pg_solver.specs.Founds.{found_map};

    ghost map = { found_map };

    #[inline(always)]
    fn len(&self) -> u32 {
        match self {
            Found::Ranks(map) => map.len(),
            Found::Rows(map) => map.len(),
        }
    }

    #[inline(always)]
    fn bounds(&self) -> &Bounds {
        match self {
            Found::Ranks(map) => map.bounds(),
            Found::Rows(map) => map.bounds(),
        }
    }

    #[inline(always)]
    fn is_top(&self, v: Vertex) -> bool {
        match self {
            Found::Ranks(map) => map.is_top(v),
            Found::Rows(map) => map.is_top(v),
        }
    }

    #[inline(always)]
    fn row<'a>(&'a self, v: Vertex, room: &'a mut [u32]) -> View<'a> {
        match self {
            Found::Ranks(map) => map.row(v, room),
            Found::Rows(map) => map.row(v, room),
        }
    }

    #[inline(always)]
    fn serves<G: Lines>(&self, lines: &G, v: Vertex, w: Vertex) -> bool {
        match self {
            Found::Ranks(map) => map.serves(lines, v, w),
            Found::Rows(map) => map.serves(lines, v, w),
        }
    }

    #[inline(always)]
    fn first_serving<G: Lines>(&self, lines: &G, v: Vertex) -> Option<Vertex> {
        match self {
            Found::Ranks(map) => map.first_serving(lines, v),
            Found::Rows(map) => map.first_serving(lines, v),
        }
    }
}
