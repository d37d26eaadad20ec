//! An interface to maps of measures, however they are stored.

ghost use Rattle.std.specs.Prelude.{◌≡◌, ◌↔◌, ℕ, ◌<◌, None, length, Contains, IsTrue, IsSome, IfSome, IfNone};
ghost use Rattle.std.specs.List.Sorted.{IsStrictlyIncreasing};
ghost use Rattle.pg_measure.specs.Views.{measure_in};
ghost use Rattle.pg_map.specs.Lines.{AreWithin, line_at};
ghost use Rattle.pg_map.specs.Maps.{MapValue, measure_at, IsMap, IsServedBy, IsFirstServing};

use crate::{Lines, MeasureMap};
use pg_arena::Vertex;
use pg_measure::{Bounds, View};

/// A read-only map from vertices to measures. It may store rows or compute them.
pub trait Measures {
    ghost map: { Self → MapValue };

    /// Returns the number of vertices.
    fn len(&self) -> u32
        ensures value { result ≡ length (map self.now).measures }
        ensures map { IsMap (map self.now).bounds result (map self.now).measures };

    /// Returns the bounds of the measures.
    fn bounds(&self) -> &Bounds
        ensures { result.now ≡ (map self.now).bounds };

    /// Whether the measure of a vertex is top.
    fn is_top(&self, v: Vertex) -> bool
        requires { v < length (map self.now).measures }
        ensures { IsTrue result ↔ (measure_at (map self.now).measures v ≡ None) };

    /// Returns the measure of a vertex, borrowed from the map if it stores rows, or else written into `room`, which must have a number
    /// for each bound.
    fn row<'a>(&'a self, v: Vertex, room: &'a mut [u32]) -> View<'a>
        requires v { v < length (map self.now).measures }
        requires room { length room.old ≡ length (map self.now).bounds }
        ensures { measure_in result ≡ measure_at (map self.now).measures v };

    /// Whether `w` serves `v`: the measure of `v` covers that of `w` at the priority of `v`.
    fn serves<G: Lines>(&self, lines: &G, v: Vertex, w: Vertex) -> bool
        requires held { IsSome (G.line lines.now v) }
        requires v { v < length (map self.now).measures }
        requires w { w < length (map self.now).measures }
        ensures { IsTrue result ↔ IsServedBy (map self.now).bounds (G.line lines.now) (map self.now).measures v w };

    /// Returns the first successor of `v` that serves it, or `None` if no successor does.
    fn first_serving<G: Lines>(&self, lines: &G, v: Vertex) -> Option<Vertex>
        requires held { IsSome (G.line lines.now v) }
        requires within { AreWithin (length (map self.now).measures) (G.line lines.now) }
        requires rising { IsStrictlyIncreasing (line_at (G.line lines.now) v).successors }
        ensures first { IfSome result
            (IsFirstServing (map self.now).bounds (G.line lines.now) (map self.now).measures v) }
        ensures none { IfNone result ((w : ℕ) → Contains (line_at (G.line lines.now) v).successors w
            → ¬ IsServedBy (map self.now).bounds (G.line lines.now) (map self.now).measures v w) }
    {
        for w in lines.successors(v) {
            if self.serves(lines, v, *w) {
                return Some(*w);
            }
        }
        None
    }
}

impl Measures for MeasureMap {
    ghost map = { λ m. m };

    #[inline(always)]
    fn len(&self) -> u32 {
        MeasureMap::len(self)
    }

    #[inline(always)]
    fn bounds(&self) -> &Bounds {
        MeasureMap::bounds(self)
    }

    #[inline(always)]
    fn is_top(&self, v: Vertex) -> bool {
        matches!(self.get(v), View::Top)
    }

    #[inline(always)]
    fn row<'a>(&'a self, v: Vertex, _room: &'a mut [u32]) -> View<'a> {
        self.get(v)
    }

    #[inline(always)]
    fn serves<G: Lines>(&self, lines: &G, v: Vertex, w: Vertex) -> bool {
        MeasureMap::serves(self, lines, v, w)
    }
}
