//! Maps from vertices to measures.

ghost use Rattle.std.specs.Prelude.{◌≡◌, ◌↔◌, ℕ, ◌+◌, ◌<◌, ◌≤◌, Some, None, length, slice_set, All, Any, IfOk, IfSome, IfNone, IsSome, IsTrue, MatchBool};
ghost use Rattle.std.specs.Bool.{OnTrue, OnFalse};
ghost use Rattle.pg_measure.specs.Measures.{Fits, AtMost, IsBelow, Covers, CoversFront, owned, width_from};
ghost use Rattle.pg_measure.specs.Mirrors.Rows.{measure_of, FrontAtMost, MissesFront, IsLeastCover};
ghost use Rattle.pg_measure.specs.Views.{measure_in};
ghost use Rattle.pg_map.specs.Lines.{AreWithin};
ghost use Rattle.pg_map.specs.Mirrors.Tables.{IsBetter, IsBest};
ghost use Rattle.pg_map.specs.Maps.{measure_at, IsMap, zero_map, update_map, MapAtMost, SomeOrAll, IsServedBy, IsServed, IsClosed, IsLifted, StaysUnder, CoversSuccessors, IsLeastClosedFrom, IsJoin};
ghost use Rattle.pg_map.specs.Weights.{map_weight};

use crate::Lines;
use crate::row_table::RowTable;
use pg_arena::{Player, Vertex};
use pg_measure::{Bounds, Measure, View, row};
use std::alloc::{AllocError, Global};
use std::marker::Model;

/// A measure within the bounds for each vertex. In contracts a map is its bounds and the list of its measures. Only `zero` allocates
/// memory.
#[derive(Drop)]
pub struct MeasureMap {
    bounds: Bounds,
    rows: RowTable,
}

impl Model for MeasureMap {
    ghost use Rattle.pg_map.specs.Maps.{MapValue};
    ghost use Rattle.pg_map.specs.Mirrors.Tables.{AreRowsOf};

    ghost Value = { MapValue };

    ghost view = { λ m. record { bounds = m.bounds; measures = m.rows.measures } };

    ghost invariant = { λ m. AreRowsOf m.bounds m.rows };
}

impl MeasureMap {
    /// Returns the map with zeros at each vertex. This call allocates all the memory that the map will ever need. It fails only if memory
    /// runs out or the size of the rows overflows.
    pub fn zero(alloc: Global, vertices: u32, bounds: &Bounds) -> Result<MeasureMap, AllocError>
        ensures bounds { IfOk result (λ m. m.bounds ≡ bounds.now) }
        ensures zeros { IfOk result (λ m. m.measures ≡ zero_map bounds.now vertices) }
    {
        let bounds = Bounds::from_pairs(alloc, bounds.pairs())?;
        let rows = RowTable::zeros(alloc, bounds.pairs().len() + 1, vertices as usize)?;
        Ok(MeasureMap { bounds, rows })
    }

    /// Returns the number of vertices.
    #[inline(always)]
    pub fn len(&self) -> u32
        ensures value { result ≡ length self.now.measures }
        ensures map { IsMap self.now.bounds result self.now.measures }
    {
        self.rows.len() as u32
    }

    /// Returns the bounds of the measures.
    #[inline(always)]
    pub fn bounds(&self) -> &Bounds
        ensures { result.now ≡ self.now.bounds }
    {
        &self.bounds
    }

    /// Returns the measure of a vertex, which must be one of the map's.
    #[inline(always)]
    pub fn get(&self, v: Vertex) -> View<'_>
        requires { v < length self.now.measures }
        ensures value { measure_in result ≡ measure_at self.now.measures v }
        ensures fits { Fits self.now.bounds (measure_in result) }
    {
        let row = self.row(v.0 as usize);
        if row[0] != 0 {
            View::Top
        } else {
            View::List(&row[1..])
        }
    }

    /// Copies the measure of a vertex into `measure`, which must have room for exactly the map's bounds.
    pub fn copy_to(&self, v: Vertex, measure: &mut Measure)
        requires v { v < length self.now.measures }
        requires room { measure.old.width ≡ length self.now.bounds }
        ensures { measure.new ≡ owned (measure_at self.now.measures v) measure.old.width }
    {
        measure.set(self.get(v));
    }

    /// Raises the measure of a vertex to at least `m`, which must be within the bounds: the join with a single update. Returns whether it
    /// rose.
    #[inline(always)]
    pub fn raise(&mut self, v: Vertex, m: View) -> bool
        requires v { v < length self.old.measures }
        requires fits { Fits self.old.bounds (measure_in m) }
        ensures bounds { self.new.bounds ≡ self.old.bounds }
        ensures size { length self.new.measures ≡ length self.old.measures }
        ensures rose { OnTrue result (IsBelow (measure_at self.old.measures v) (measure_in m.entry)
            × (self.new.measures ≡ slice_set self.old.measures v (measure_in m.entry))) }
        ensures stays { OnFalse result (AtMost (measure_in m.entry) (measure_at self.old.measures v)) }
        ensures same { OnFalse result (self.new ≡ self.old) }
        ensures join { IsJoin self.old.measures
            (update_map self.old.bounds (length self.old.measures) v (measure_in m.entry)) self.new.measures }
    {
        let at = v.0 as usize;
        if self.is_top(at) {
            return false;
        }
        match m {
            View::Top => self.put_top(at),
            View::List(list) => {
                if !row::is_below(&self.row(at)[1..], list) {
                    return false;
                }
                self.write_list(at, list);
            }
        }
        true
    }

    /// Whether `w` serves `v`: the measure of `v` covers that of `w` at the priority of `v`.
    #[inline(always)]
    pub fn serves<G: Lines>(&self, lines: &G, v: Vertex, w: Vertex) -> bool
        requires held { IsSome (G.line lines.now v) }
        requires v { v < length self.now.measures }
        requires w { w < length self.now.measures }
        ensures { IsTrue result ↔ IsServedBy self.now.bounds (G.line lines.now) self.now.measures v w }
    {
        self.covers_at(lines.priority(v), v, w)
    }

    /// Whether the measure of `v` covers that of `w` at this priority.
    #[inline(always)]
    pub fn covers_at(&self, priority: u32, v: Vertex, w: Vertex) -> bool
        requires v { v < length self.now.measures }
        requires w { w < length self.now.measures }
        ensures { IsTrue result ↔ Covers self.now.bounds priority
            (measure_at self.now.measures v) (measure_at self.now.measures w) }
    {
        let front = self.bounds().width_from(priority);
        self.covers(v.0 as usize, w.0 as usize, front, priority % 2 == 1)
    }

    /// Lifts a vertex: sets its measure to the least one that serves it, if that is above its current measure. Returns whether it rose.
    pub fn lift<G: Lines>(&mut self, lines: &G, v: Vertex) -> bool
        requires held { IsSome (G.line lines.now v) }
        requires within { AreWithin (length self.old.measures) (G.line lines.now) }
        ensures bounds { self.new.bounds ≡ self.old.bounds }
        ensures map { IsMap self.old.bounds (length self.old.measures) self.new.measures }
        ensures lifted { OnTrue result (IsLifted self.old.bounds
            (G.line lines.now) self.old.measures self.new.measures v) }
        ensures served { OnFalse result (IsServed self.old.bounds (G.line lines.now) self.old.measures v) }
        ensures same { OnFalse result (self.new ≡ self.old) }
        ensures under { StaysUnder self.old.bounds (G.line lines.now) self.old.measures self.new.measures }
        ensures weight { OnTrue result
            (map_weight self.old.bounds self.new.measures < map_weight self.old.bounds self.old.measures) }
    {
        let at = v.0 as usize;
        if self.is_top(at) {
            return false;
        }
        let priority = lines.priority(v);
        let front = self.bounds().width_from(priority);
        let strict = priority % 2 == 1;
        if self.covers_successors(at, lines.owner(v), lines.successors(v), front, strict) {
            return false;
        }
        let best = self.best_of(lines.owner(v), lines.successors(v), front);
        self.step(best, at, front, strict);
        true
    }

    /// Returns the least vertex that can be lifted, or `None` if and only if the map is closed.
    pub fn first_liftable<G: Lines>(&self, lines: &G) -> Option<Vertex>
        requires { AreWithin (length self.now.measures) (G.line lines.now) }
        ensures fits { All (Fits self.now.bounds) self.now.measures }
        ensures closed { IfNone result (IsClosed self.now.bounds (G.line lines.now) self.now.measures) }
        ensures liftable { IfSome result
            (λ v. IsSome (G.line lines.now v) × ¬ (IsServed self.now.bounds (G.line lines.now) self.now.measures v)) }
        ensures least { IfSome result (λ v. (u : ℕ) → u < v → IsSome (G.line lines.now u)
            → IsServed self.now.bounds (G.line lines.now) self.now.measures u) }
    {
        for number in 0..self.len() {
            let v = Vertex(number);
            if lines.holds(v) && !self.is_served(lines, v) {
                return Some(v);
            }
        }
        None
    }

    /// Lifts each vertex that can be lifted, from 0 up. Returns whether any of them rose; if not, the map is closed. Afterwards the
    /// measure of each vertex covers the earlier measures of some of its successors if Even owns it, or of all of them if Odd does.
    pub fn lift_each<G: Lines>(&mut self, lines: &G) -> bool
        requires { AreWithin (length self.old.measures) (G.line lines.now) }
        ensures bounds { self.new.bounds ≡ self.old.bounds }
        ensures map { IsMap self.old.bounds (length self.old.measures) self.new.measures }
        ensures above { MapAtMost self.old.measures self.new.measures }
        ensures covers { (v : ℕ) → IsSome (G.line lines.now v)
            → CoversSuccessors self.old.bounds (G.line lines.now) self.old.measures v (measure_at self.new.measures v) }
        ensures under { StaysUnder self.old.bounds (G.line lines.now) self.old.measures self.new.measures }
        ensures weight { OnTrue result
            (map_weight self.old.bounds self.new.measures < map_weight self.old.bounds self.old.measures) }
        ensures same { OnFalse result (self.new ≡ self.old) }
        ensures closed { OnFalse result (IsClosed self.old.bounds (G.line lines.now) self.old.measures) }
    {
        let mut rose = false;
        for number in 0..self.len() {
            let v = Vertex(number);
            if lines.holds(v) {
                rose |= self.lift(lines, v);
            }
        }
        rose
    }

    /// Whether a vertex is served.
    fn is_served<G: Lines>(&self, lines: &G, v: Vertex) -> bool
        requires held { IsSome (G.line lines.now v) }
        requires within { AreWithin (length self.now.measures) (G.line lines.now) }
        ensures { MatchBool result (IsServed self.now.bounds (G.line lines.now) self.now.measures v)
            (¬ (IsServed self.now.bounds (G.line lines.now) self.now.measures v)) }
    {
        let at = v.0 as usize;
        if self.is_top(at) {
            return true;
        }
        let priority = lines.priority(v);
        let front = self.bounds().width_from(priority);
        let strict = priority % 2 == 1;
        self.covers_successors(at, lines.owner(v), lines.successors(v), front, strict)
    }

    /// Whether this map is at most the other one at each vertex.
    pub(crate) fn is_at_most(&self, other: &MeasureMap) -> bool
        requires bounds { self.now.bounds ≡ other.now.bounds }
        requires size { length self.now.measures ≡ length other.now.measures }
        ensures { IsTrue result ↔ MapAtMost self.now.measures other.now.measures }
    {
        for number in 0..self.len() {
            if !self.is_at_most_at(other, number as usize) {
                return false;
            }
        }
        true
    }

    /// Raises each measure to at least that of the other map.
    pub(crate) fn join_all(&mut self, other: &MeasureMap)
        requires bounds { self.old.bounds ≡ other.now.bounds }
        requires size { length self.old.measures ≡ length other.now.measures }
        ensures bounds { self.new.bounds ≡ self.old.bounds }
        ensures size { length self.new.measures ≡ length self.old.measures }
        ensures join { IsJoin self.old.measures other.now.measures self.new.measures }
    {
        for number in 0..other.len() {
            let v = Vertex(number);
            self.raise(v, other.get(v));
        }
    }

    /// Returns the row of a vertex.
    #[inline(always)]
    fn row(&self, v: usize) -> &[u32]
        requires { v < length self.now.measures }
        ensures length { length result.now ≡ length self.now.bounds + 1 }
        ensures value { measure_of result.now ≡ measure_at self.now.measures v }
        ensures fits { Fits self.now.bounds (measure_at self.now.measures v) }
    {
        self.rows.row(v as u32)
    }

    /// Whether a vertex is at top.
    #[inline(always)]
    fn is_top(&self, v: usize) -> bool
        requires { v < length self.now.measures }
        ensures top { MatchBool result (measure_at self.now.measures v ≡ None)
            (¬ (measure_at self.now.measures v ≡ None)) }
        ensures map { IsMap self.now.bounds (length self.now.measures) self.now.measures }
    {
        self.rows.is_top(v as u32)
    }

    /// Whether the first `front` components of `a` are at most those of `b`. If they are equal, the result may be either. Top is above
    /// every list.
    #[inline(always)]
    fn is_less(&self, a: usize, b: usize, front: usize) -> bool
        requires a { a < length self.now.measures }
        requires b { b < length self.now.measures }
        requires front { front ≤ length self.now.bounds }
        ensures { MatchBool result (FrontAtMost front (measure_at self.now.measures a) (measure_at self.now.measures b))
            (FrontAtMost front (measure_at self.now.measures b) (measure_at self.now.measures a)) }
    {
        row::is_front_below(self.row(a), self.row(b), front)
    }

    /// Whether the measure of `v` covers that of `w` in the first `front` components.
    #[inline(always)]
    fn covers(&self, v: usize, w: usize, front: usize, strict: bool) -> bool
        requires v { v < length self.now.measures }
        requires w { w < length self.now.measures }
        requires front { front ≤ length self.now.bounds }
        ensures { MatchBool result
            (CoversFront strict front (measure_at self.now.measures v) (measure_at self.now.measures w))
            (MissesFront strict front (measure_at self.now.measures v) (measure_at self.now.measures w)) }
    {
        row::covers(self.row(v), self.row(w), front, strict)
    }

    /// Whether the measure of `v` covers the measure of some of the vertices, if the owner is Even, or of all of them, if it is Odd.
    fn covers_successors(
        &self,
        v: usize,
        owner: Player,
        successors: &[Vertex],
        front: usize,
        strict: bool,
    ) -> bool
        requires v { v < length self.now.measures }
        requires successors { All (λ w. w < length self.now.measures) successors.now }
        requires front { front ≤ length self.now.bounds }
        ensures { MatchBool result (SomeOrAll owner (λ w. CoversFront strict front (measure_at self.now.measures v)
            (measure_at self.now.measures w)) successors.now)
            (¬ (SomeOrAll owner (λ w. CoversFront strict front (measure_at self.now.measures v)
            (measure_at self.now.measures w)) successors.now)) }
    {
        match owner {
            Player::Even => self.covers_one(v, successors, front, strict),
            Player::Odd => self.covers_each(v, successors, front, strict),
        }
    }

    /// Whether the measure of `v` covers that of at least one of the vertices.
    fn covers_one(&self, v: usize, successors: &[Vertex], front: usize, strict: bool) -> bool
        requires v { v < length self.now.measures }
        requires successors { All (λ w. w < length self.now.measures) successors.now }
        requires front { front ≤ length self.now.bounds }
        ensures { IsTrue result ↔ Any (λ w. CoversFront strict front (measure_at self.now.measures v)
            (measure_at self.now.measures w)) successors.now }
    {
        for w in successors {
            if self.covers(v, w.0 as usize, front, strict) {
                return true;
            }
        }
        false
    }

    /// Whether the measure of `v` covers that of each of the vertices.
    fn covers_each(&self, v: usize, successors: &[Vertex], front: usize, strict: bool) -> bool
        requires v { v < length self.now.measures }
        requires successors { All (λ w. w < length self.now.measures) successors.now }
        requires front { front ≤ length self.now.bounds }
        ensures { IsTrue result ↔ All (λ w. CoversFront strict front (measure_at self.now.measures v)
            (measure_at self.now.measures w)) successors.now }
    {
        for w in successors {
            if !self.covers(v, w.0 as usize, front, strict) {
                return false;
            }
        }
        true
    }

    /// Returns the successor that the owner prefers to cover: for Even the one with the least measure in the first `front` components,
    /// for Odd the one with the greatest.
    fn best_of(&self, owner: Player, successors: &[Vertex], front: usize) -> usize
        requires successors { All (λ w. w < length self.now.measures) successors.now }
        requires nonempty { 0 < length successors.now }
        requires front { front ≤ length self.now.bounds }
        ensures within { result < length self.now.measures }
        ensures best { IsBest owner front self.now.measures successors.now result }
    {
        let first = successors[0];
        let mut best = first.0 as usize;
        for w in successors {
            let here = w.0 as usize;
            if self.is_better(owner, here, best, front) {
                best = here;
            }
        }
        best
    }

    /// Whether the owner prefers to cover `a` rather than `b`.
    fn is_better(&self, owner: Player, a: usize, b: usize, front: usize) -> bool
        requires a { a < length self.now.measures }
        requires b { b < length self.now.measures }
        requires front { front ≤ length self.now.bounds }
        ensures { MatchBool result
            (IsBetter owner front (measure_at self.now.measures a) (measure_at self.now.measures b))
            (IsBetter owner front (measure_at self.now.measures b) (measure_at self.now.measures a)) }
    {
        match owner {
            Player::Even => self.is_less(a, b, front),
            Player::Odd => self.is_less(b, a, front),
        }
    }

    /// Sets the measure of the vertex `to`, which isn't at top, to the least one that covers the measure of `from` in the first `front`
    /// components.
    #[inline(always)]
    fn step(&mut self, from: usize, to: usize, front: usize, strict: bool)
        requires from { from < length self.old.measures }
        requires to { to < length self.old.measures }
        requires front { front ≤ length self.old.bounds }
        requires list { ¬ (measure_at self.old.measures to ≡ None) }
        ensures bounds { self.new.bounds ≡ self.old.bounds }
        ensures map { IsMap self.old.bounds (length self.old.measures) self.new.measures }
        ensures step { IsLeastCover self.old.bounds strict front
            (measure_at self.old.measures from) (measure_at self.new.measures to) }
        ensures others { self.new.measures ≡ slice_set self.old.measures to (measure_at self.new.measures to) }
    {
        self.rows
            .step(from as u32, to as u32, self.bounds.pairs(), front, strict);
    }

    /// Sets the measure of a vertex to top.
    #[inline(always)]
    fn put_top(&mut self, v: usize)
        requires { v < length self.old.measures }
        ensures bounds { self.new.bounds ≡ self.old.bounds }
        ensures measures { self.new.measures ≡ slice_set self.old.measures v None }
    {
        self.rows.set_top(v as u32);
    }

    /// Sets the measure of a vertex, which isn't at top, to a list within the bounds.
    #[inline(always)]
    fn write_list(&mut self, v: usize, list: &[u32])
        requires v { v < length self.old.measures }
        requires fits { Fits self.old.bounds (Some list.now) }
        requires list { ¬ (measure_at self.old.measures v ≡ None) }
        ensures bounds { self.new.bounds ≡ self.old.bounds }
        ensures measures { self.new.measures ≡ slice_set self.old.measures v (Some list.now) }
    {
        self.rows.set(v as u32, list);
    }

    /// Whether the measure of a vertex is at most its measure in the other map.
    fn is_at_most_at(&self, other: &MeasureMap, v: usize) -> bool
        requires bounds { self.now.bounds ≡ other.now.bounds }
        requires first { v < length self.now.measures }
        requires second { v < length other.now.measures }
        ensures { IsTrue result ↔ AtMost (measure_at self.now.measures v) (measure_at other.now.measures v) }
    {
        row::covers(
            other.row(v),
            self.row(v),
            self.bounds().pairs().len(),
            false,
        )
    }
}

/// Lifts in passes over all vertices until none can be lifted. The map becomes the least closed map that is at least the original one.
/// Starting from zeros, that is the least progress measure.
pub fn lift_to_end<G: Lines>(map: &mut MeasureMap, lines: &G)
    requires { AreWithin (length map.old.measures) (G.line lines.now) }
    ensures bounds { map.new.bounds ≡ map.old.bounds }
    ensures least { IsLeastClosedFrom map.old.bounds (G.line lines.now) map.old.measures map.new.measures }
{
    while map.lift_each(lines) {}
}
