//! Lines that are lifted.

ghost use Rattle.std.specs.Prelude.{◌≡◌, ◌<◌, ◌∷◌, ◌++◌, [], true, length, slice_set, Some, All, IsSome, IfSome, IfNone, IfOk, IsTrue, MatchBool, ◌↔◌};
ghost use Rattle.std.specs.Bool.{OnTrue, OnFalse};
ghost use Rattle.pg_measure.specs.Measures.{Fits, AtMost, IsBelow, owned};
ghost use Rattle.pg_measure.specs.Views.{measure_in};
ghost use Rattle.pg_map.specs.Lines.{AreWithin};
ghost use Rattle.pg_map.specs.Maps.{measure_at, update_map, IsMap, IsJoin, IsLifted, IsServed, IsClosed};
ghost use Rattle.pg_map_lift.specs.Mirrors.Lifters.{KeepsLines, Lifts};
ghost use Rattle.pg_map_lift.specs.Mirrors.Watches.{IsWatch, ListsAll};

use crate::part::{Part, PartLine};
use crate::predecessors::Predecessors;
use crate::queue::Queue;
use crate::watch::{Watch, is_served, liftable_before};
use pg_arena::Vertex;
use pg_map::{Lines, MeasureMap, View};
use pg_measure::{Bounds, Measure};
use std::alloc::{AllocError, Global};
use std::marker::Model;

/// Lines, a map of their vertices, and a queue that proposes what to lift. Contracts see the lines and the map.
#[derive(Drop)]
pub struct Lifter<G: Lines + Drop> {
    lines: G,
    pub map: MeasureMap,
    queue: Queue,
    predecessors: Predecessors,
    watch: Watch,
}

impl<G: Lines + Drop> Model for Lifter<G> {
    ghost use Rattle.std.specs.Prelude.{◌≡◌, true, length};
    ghost use Rattle.pg_map.specs.Lines.{AreWithin};
    ghost use Rattle.pg_map_lift.specs.Mirrors.Lifters.{LifterValue, IsLifter};
    ghost use Rattle.pg_map_lift.specs.Mirrors.Watches.{IsWatch};

    ghost Value = { LifterValue G };

    ghost view = { λ l. record { lines = l.lines; map = l.map } };

    ghost invariant = { λ l. IsLifter (G.line l.lines) l.map l.predecessors.starts.items l.predecessors.sources.items
        l.watch.is_on l.watch.risen.items };
}

/// Lets the vertices of the lines wait. Returns how many edges the lines have.
fn begin_all<G: Lines>(queue: &mut Queue, map: &MeasureMap, lines: &G) -> usize {
    let mut edges = 0usize;
    for number in (0..map.len()).rev() {
        let v = Vertex(number);
        if lines.holds(v) {
            edges = edges.saturating_add(lines.successors(v).len());
            queue.begin(map, lines, v);
        }
    }
    edges
}

/// Lifts the first vertex that can be lifted among those that the queue proposes, and returns it.
#[inline(always)]
fn lift_proposed<G: Lines>(map: &mut MeasureMap, lines: &G, queue: &mut Queue) -> Option<Vertex>
    requires within { AreWithin (length map.old.measures) (G.line lines.now) }
    ensures bounds { map.new.bounds ≡ map.old.bounds }
    ensures size { length map.new.measures ≡ length map.old.measures }
    ensures held { IfSome result (λ v. IsSome (G.line lines.now v)) }
    ensures lifted { IfSome result (IsLifted map.old.bounds (G.line lines.now) map.old.measures map.new.measures) }
    ensures same { IfNone result (map.new ≡ map.old) }
{
    'proposals: for _ in 0..u64::MAX {
        let v = queue.next(map, lines)?;
        if lines.holds(v) && map.lift(lines, v) {
            return Some(v);
        }
    }
    None
}

/// Returns the first vertex that can be lifted among those that the queue proposes.
fn liftable_proposed<G: Lines>(map: &MeasureMap, lines: &G, queue: &mut Queue) -> Option<Vertex>
    requires { AreWithin (length map.now.measures) (G.line lines.now) }
    ensures { IfSome result (λ v. IsSome (G.line lines.now v)
        × ¬ (IsServed map.now.bounds (G.line lines.now) map.now.measures v)) }
{
    'proposals: for _ in 0..u64::MAX {
        let v = queue.next(map, lines)?;
        if lines.holds(v) && !is_served(map, lines, v) {
            return Some(v);
        }
    }
    None
}

/// Returns a vertex that can be lifted, or `None` exactly if the map is closed. While the watch is on, it looks only at vertices
/// that lead to a vertex that rose.
fn liftable<G: Lines>(
    map: &MeasureMap,
    lines: &G,
    predecessors: &Predecessors,
    watch: &Watch,
) -> Option<Vertex>
    requires within { AreWithin (length map.now.measures) (G.line lines.now) }
    requires watched { watch.now.is_on ≡ true → IsWatch map.now.bounds (G.line lines.now) map.now.measures
        predecessors.now.starts.items predecessors.now.sources.items watch.now.risen.items }
    ensures liftable { IfSome result (λ v. IsSome (G.line lines.now v)
        × ¬ (IsServed map.now.bounds (G.line lines.now) map.now.measures v)) }
    ensures closed { IfNone result (IsClosed map.now.bounds (G.line lines.now) map.now.measures) }
{
    if watch.is_on {
        liftable_before(map, lines, predecessors, &watch.risen)
    } else {
        map.first_liftable(lines)
    }
}

/// Lifts as `lift_proposed` does or, if nothing that is proposed can be lifted, lifts a vertex that can. Returns `None` if none can
/// be lifted.
#[inline(always)]
fn lift_one<G: Lines>(
    map: &mut MeasureMap,
    lines: &G,
    queue: &mut Queue,
    predecessors: &Predecessors,
    watch: &Watch,
) -> Option<Vertex>
    requires within { AreWithin (length map.old.measures) (G.line lines.now) }
    requires watched { watch.now.is_on ≡ true → IsWatch map.old.bounds (G.line lines.now) map.old.measures
        predecessors.now.starts.items predecessors.now.sources.items watch.now.risen.items }
    ensures bounds { map.new.bounds ≡ map.old.bounds }
    ensures size { length map.new.measures ≡ length map.old.measures }
    ensures held { IfSome result (λ v. IsSome (G.line lines.now v)) }
    ensures lifted { IfSome result (IsLifted map.old.bounds (G.line lines.now) map.old.measures map.new.measures) }
    ensures same { IfNone result (map.new ≡ map.old) }
    ensures closed { IfNone result (IsClosed map.old.bounds (G.line lines.now) map.old.measures) }
{
    if let Some(v) = lift_proposed(map, lines, queue) {
        return Some(v);
    }
    let v = liftable(map, lines, predecessors, watch)?;
    let _rose = map.lift(lines, v);
    Some(v)
}

/// Lets the vertices wait that a vertex, which rose, no longer serves, and notes that it rose.
#[inline(always)]
fn rise<G: Lines>(
    map: &MeasureMap,
    lines: &G,
    queue: &mut Queue,
    predecessors: &mut Predecessors,
    watch: &mut Watch,
    v: Vertex,
)
    ensures { watch.new.is_on ≡ true → (watch.old.is_on ≡ true)
        × (watch.new.risen.items ≡ watch.old.risen.items ++ v ∷ []) × (predecessors.new ≡ predecessors.old) }
{
    watch.push(v);
    if !watch.is_on {
        predecessors.gather(lines);
    }
    queue.rise(map, lines, predecessors, v);
}

/// Begins a watch anew, if all predecessors are seen to be there.
fn begin_watch<G: Lines>(lines: &G, predecessors: &mut Predecessors, watch: &mut Watch, count: u32)
    requires within { AreWithin count (G.line lines.now) }
    requires listed { watch.old.is_on ≡ true → ListsAll predecessors.old.starts.items predecessors.old.sources.items (G.line lines.now) }
    ensures { watch.new.is_on ≡ true → (watch.new.risen.items ≡ [])
        × ListsAll predecessors.new.starts.items predecessors.new.sources.items (G.line lines.now) }
{
    if watch.is_on {
        watch.begin();
        return;
    }
    predecessors.gather(lines);
    if predecessors.list_all(lines, count) {
        watch.begin();
    }
}

impl<G: Lines + Drop> Lifter<G> {
    /// Makes a lifter of lines and a map that no call has lifted yet. It fails only if memory runs out; lifts take no memory.
    pub fn new(alloc: Global, lines: G, map: MeasureMap) -> Result<Lifter<G>, AllocError>
        requires within { AreWithin (length map.measures) (G.line lines) }
        ensures lines { IfOk result (λ l. l.lines ≡ lines) }
        ensures map { IfOk result (λ l. l.map ≡ map) }
    {
        let vertices = map.len();
        let mut queue = Queue::new(alloc, vertices)?;
        let mut predecessors = Predecessors::new(alloc, vertices)?;
        predecessors.reserve(begin_all(&mut queue, &map, &lines))?;
        let watch = Watch::new(alloc, vertices)?;
        Ok(Lifter {
            lines,
            map,
            queue,
            predecessors,
            watch,
        })
    }

    /// Returns the number of vertices.
    pub fn len(&self) -> u32
        ensures value { result ≡ length self.now.map.measures }
        ensures map { IsMap self.now.map.bounds result self.now.map.measures }
        ensures within { AreWithin (length self.now.map.measures) (G.line self.now.lines) }
    {
        self.map.len()
    }

    /// Returns the bounds of the measures.
    #[inline(always)]
    pub fn bounds(&self) -> &Bounds
        ensures { result.now ≡ self.now.map.bounds }
    {
        self.map.bounds()
    }

    /// Whether the lines hold a vertex.
    pub fn holds(&self, v: Vertex) -> bool
        ensures { IsTrue result ↔ IsSome (G.line self.now.lines v) }
    {
        self.lines.holds(v)
    }

    /// Sets `measure`, which has room for the bounds, to the measure of a vertex.
    pub fn copy_to(&self, v: Vertex, measure: &mut Measure)
        requires v { v < length self.now.map.measures }
        requires room { measure.old.width ≡ length self.now.map.bounds }
        ensures { measure.new ≡ owned (measure_at self.now.map.measures v) measure.old.width }
    {
        self.map.copy_to(v, measure);
    }

    /// Raises the measure of a vertex to at least `m`. Returns true exactly if it rose.
    #[inline(always)]
    pub fn take(&mut self, v: Vertex, m: View) -> bool
        requires v { v < length self.old.map.measures }
        requires fits { Fits self.old.map.bounds (measure_in m) }
        ensures same { KeepsLines self.old self.new }
        ensures rose { OnTrue result (IsBelow (measure_at self.old.map.measures v) (measure_in m.entry)
            × (self.new.map.measures ≡ slice_set self.old.map.measures v (measure_in m.entry))) }
        ensures stays { OnFalse result ((self.new ≡ self.old)
            × AtMost (measure_in m.entry) (measure_at self.old.map.measures v)) }
        ensures join { IsJoin self.old.map.measures
            (update_map self.old.map.bounds (length self.old.map.measures) v (measure_in m.entry)) self.new.map.measures }
    {
        if !self.map.raise(v, m) {
            return false;
        }
        rise(
            &self.map,
            &self.lines,
            &mut self.queue,
            &mut self.predecessors,
            &mut self.watch,
            v,
        );
        true
    }

    /// Lifts the next vertex that can be lifted, and returns it. Returns `None` if none can be lifted.
    #[inline(always)]
    pub fn lift_next(&mut self) -> Option<Vertex>
        ensures lifted { IfSome result (Lifts G.line self.old self.new) }
        ensures closed { IfNone result ((self.new ≡ self.old)
            × IsClosed self.old.map.bounds (G.line self.old.lines) self.old.map.measures) }
    {
        let v = lift_one(
            &mut self.map,
            &self.lines,
            &mut self.queue,
            &self.predecessors,
            &self.watch,
        )?;
        rise(
            &self.map,
            &self.lines,
            &mut self.queue,
            &mut self.predecessors,
            &mut self.watch,
            v,
        );
        Some(v)
    }

    /// Lifts a vertex that is held. Returns false, and changes nothing, if it is served.
    pub fn lift(&mut self, v: Vertex) -> bool
        requires { IsSome (G.line self.old.lines v) }
        ensures lifted { OnTrue result (Lifts G.line self.old self.new v) }
        ensures served { OnFalse result ((self.new ≡ self.old)
            × IsServed self.old.map.bounds (G.line self.old.lines) self.old.map.measures v) }
    {
        if !self.map.lift(&self.lines, v) {
            return false;
        }
        rise(
            &self.map,
            &self.lines,
            &mut self.queue,
            &mut self.predecessors,
            &mut self.watch,
            v,
        );
        true
    }

    /// Whether no vertex can be lifted.
    pub fn is_quiet(&mut self) -> bool
        ensures same { self.new ≡ self.old }
        ensures quiet { MatchBool result (IsClosed self.old.map.bounds (G.line self.old.lines) self.old.map.measures)
            (¬ (IsClosed self.old.map.bounds (G.line self.old.lines) self.old.map.measures)) }
    {
        if let Some(v) = liftable_proposed(&self.map, &self.lines, &mut self.queue) {
            self.queue.add(v);
            return false;
        }
        match liftable(&self.map, &self.lines, &self.predecessors, &self.watch) {
            Some(_) => false,
            None => {
                self.watch();
                true
            }
        }
    }

    /// Notes from now on which vertices rise. The map must be closed. Looks then go only over the vertices that lead to these, as
    /// long as there is room for them.
    pub fn watch(&mut self)
        requires { IsClosed self.old.map.bounds (G.line self.old.lines) self.old.map.measures }
        ensures { self.new ≡ self.old }
    {
        begin_watch(
            &self.lines,
            &mut self.predecessors,
            &mut self.watch,
            self.map.len(),
        );
    }
}

impl Lifter<Part> {
    /// Makes room for `edges` more edges. Fails only if memory runs out.
    pub fn reserve(&mut self, edges: usize) -> Result<(), AllocError>
        ensures { self.new ≡ self.old }
    {
        self.watch.is_on = false;
        self.predecessors.reserve(edges)
    }

    /// Adds the line of a vertex, for whose edges there must be room.
    pub fn add(&mut self, v: Vertex, line: PartLine)
        requires size { length self.old.lines ≡ length self.old.map.measures }
        requires v { v < length self.old.lines }
        requires within { All (λ w. w < length self.old.lines) line.successors }
        requires some { 0 < length line.successors }
        ensures lines { self.new.lines ≡ slice_set self.old.lines v (Some line) }
        ensures map { self.new.map ≡ self.old.map }
    {
        self.watch.is_on = false;
        self.lines.put(v, line);
        self.queue.begin(&self.map, &self.lines, v);
    }
}
