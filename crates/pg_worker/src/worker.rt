//! Workers.

ghost use Rattle.std.specs.Prelude.{◌≡◌, ◌↔◌, ◌+◌, ◌<◌, ◌≤◌, ◌⊎◌, [], ◌∷◌, true, length, All, IfOk, IfErr, IfSome, IfNone, IsOk, OnOk, OnErr, IsTrue, IsSome};
ghost use Rattle.pg_wire.specs.Lines.{line_with};
ghost use Rattle.pg_wire.specs.Well.{IsSetup, IsVertices};
ghost use Rattle.pg_measure.specs.Measures.{Fits};
ghost use Rattle.pg_measure.specs.Views.{measure_in};
ghost use Rattle.pg_map.specs.Maps.{measure_at, zero_map, IsServed};
ghost use Rattle.pg_worker.specs.Workers.{part_line, new_worker, with_lines, AreAbove, FitsGame, IsWorker, RefusesLines, CanTake, Takes, Lifts, IsTurn, IsListedTurn};

use crate::adding::{add_lines, are_from, count_edges, fit_game, fits_line, new_line, new_lines};
use crate::lifting::{lift_some, lift_turn};
use crate::{Lifted, WorkerFault};
use pg_arena::Vertex;
use pg_coord_partition::{VertexSet, fits};
use pg_map::{MeasureMap, Update, View};
use pg_map_lift::{Lifter, Part};
use pg_measure::{Bounds, Measure};
use pg_wire::{LineHead, Setup, VertexLine};
use std::alloc::{AllocError, Global};
use std::marker::Model;
use std::mem;

/// A part of a game, and a measure for each vertex of the game. Contracts see the bounds, the lines of the part, the
/// map, and the vertices that were lifted last. They don't see how the worker finds vertices to lift.
#[derive(Drop)]
pub struct Worker {
    lifter: Lifter<Part>,
    /// One more than the greatest vertex of the part, or 0.
    next: u64,
    kept: Vec<Update>,
    lifted: VertexSet,
}

impl Model for Worker {
    ghost use Rattle.pg_worker.specs.Workers.{WorkerValue};

    ghost Value = { WorkerValue };

    ghost use Rattle.pg_worker.specs.Mirrors.Insides.{IsWhole};

    ghost view = { λ w. record { bounds = w.lifter.map.bounds; lines = w.lifter.lines; map = w.lifter.map.measures; kept = w.kept.items; lifted = w.lifted.vertices } };

    ghost invariant = { λ w. IsWhole w.lifter w.next w.lifted.count };
}

/// Makes the map of a new worker.
fn zeros(alloc: Global, setup: &Setup) -> Result<MeasureMap, AllocError>
    requires { IsSetup setup.now }
    ensures bounds { IfOk result (λ m. m.bounds ≡ setup.now.bounds) }
    ensures zeros { IfOk result (λ m. m.measures ≡ zero_map setup.now.bounds setup.now.vertices) }
{
    let bounds = Bounds::from_pairs(alloc, setup.bounds.as_slice())?;
    MeasureMap::zero(alloc, setup.vertices, &bounds)
}

impl Worker {
    /// Makes a worker for a game with the number of vertices and the bounds of a set-up. Its part is empty, and its map has
    /// zeros. It fails only if memory runs out.
    pub fn new(alloc: Global, setup: &Setup) -> Result<Worker, WorkerFault>
        requires { IsSetup setup.now }
        ensures new { IfOk result (λ w. w ≡ new_worker setup.now.bounds setup.now.vertices) }
        ensures memory { IfErr result (λ e. e ≡ WorkerFault.OutOfMemory) }
    {
        let vertices = setup.vertices;
        let lifted = VertexSet::new(alloc, vertices)?;
        let map = zeros(alloc, setup)?;
        let lines = Part::new(alloc, vertices)?;
        let lifter = Lifter::new(alloc, lines, map)?;
        Ok(Worker {
            lifter,
            next: 0,
            kept: Vec::new(alloc),
            lifted,
        })
    }

    /// Adds vertices to the part. Their numbers must rise, within the call and from call to call. It fails with `Order`
    /// if and only if they aren't above those in the part; otherwise with `BadUpdate` if and only if the number of a
    /// vertex or of a successor isn't below the number of vertices, or an odd priority has no bound; otherwise only if
    /// memory runs out. After a fault nothing has changed. The next value or lift goes over all edges of the part once,
    /// to find the predecessors of each vertex.
    pub fn add_vertices(&mut self, lines: &[VertexLine]) -> Result<(), WorkerFault>
        requires { IsVertices (record { lines = lines.now }) }
        ensures added { OnOk result (self.new ≡ record self.old { lines = with_lines self.old.lines lines.now }) }
        ensures above { OnOk result (AreAbove self.old.lines lines.now) }
        ensures fit { OnOk result (All (FitsGame self.old.bounds (length self.old.map)) lines.now) }
        ensures refused { IfErr result (λ e. (e ≡ WorkerFault.OutOfMemory) ⊎ RefusesLines self.old lines.now e) }
        ensures same { OnErr result (self.new ≡ self.old) }
    {
        if !are_from(self.next, lines) {
            return Err(WorkerFault::Order);
        }
        if !fit_game(self.lifter.bounds(), self.lifter.len(), lines) {
            return Err(WorkerFault::BadUpdate);
        }
        let held = new_lines(*self.kept.allocator(), lines)?;
        self.lifter.reserve(count_edges(lines))?;
        add_lines(&mut self.lifter, &mut self.next, lines, held);
        Ok(())
    }

    /// Adds one vertex, given by its head and its successors, of which there must be at least one, as `add_vertices` does.
    pub fn add_vertex(&mut self, head: LineHead, successors: &[u32]) -> Result<(), WorkerFault>
        requires { 0 < length successors.now }
        ensures added { OnOk result (self.new ≡ record self.old {
          lines = with_lines self.old.lines (line_with head successors.now ∷ []);
        }) }
        ensures above { OnOk result (AreAbove self.old.lines (line_with head successors.now ∷ [])) }
        ensures fit { OnOk result (All (FitsGame self.old.bounds (length self.old.map))
            (line_with head successors.now ∷ [])) }
        ensures refused { IfErr result (λ e. (e ≡ WorkerFault.OutOfMemory)
            ⊎ RefusesLines self.old (line_with head successors.now ∷ []) e) }
        ensures same { OnErr result (self.new ≡ self.old) }
    {
        let vertex = head.vertex;
        if u64::from(vertex) < self.next {
            return Err(WorkerFault::Order);
        }
        if !fits_line(self.lifter.bounds(), self.lifter.len(), head, successors) {
            return Err(WorkerFault::BadUpdate);
        }
        let line = new_line(*self.kept.allocator(), head, successors)?;
        self.lifter.reserve(successors.len())?;
        self.lifter.add(Vertex(vertex), line);
        self.next = u64::from(vertex) + 1;
        Ok(())
    }

    /// Joins an update with the map. Returns true if and only if the measure of the vertex rose. It fails with `BadUpdate`
    /// if and only if the vertex isn't below the number of vertices or the measure doesn't fit the bounds; then nothing has
    /// changed. It takes no memory.
    pub fn take(&mut self, update: &Update) -> Result<bool, WorkerFault>
        ensures taken { IfOk result (Takes self.old self.new update.now.vertex update.now.measure.value) }
        ensures ok { IsOk result ↔ CanTake self.old update.now.vertex update.now.measure.value }
        ensures refused { IfErr result (λ e. e ≡ WorkerFault.BadUpdate) }
        ensures same { OnErr result (self.new ≡ self.old) }
    {
        self.take_value(update.vertex.0, update.measure.view())
    }

    /// Joins the measure of a vertex, given by its number and a borrowed measure, as `take` does.
    pub fn take_value(&mut self, vertex: u32, measure: View) -> Result<bool, WorkerFault>
        ensures taken { IfOk result (Takes self.old self.new vertex (measure_in measure.entry)) }
        ensures ok { IsOk result ↔ CanTake self.old vertex (measure_in measure.entry) }
        ensures refused { IfErr result (λ e. e ≡ WorkerFault.BadUpdate) }
        ensures same { OnErr result (self.new ≡ self.old) }
    {
        if vertex >= self.lifter.len() || !fits(measure, self.lifter.bounds()) {
            return Err(WorkerFault::BadUpdate);
        }
        Ok(self.lifter.take(Vertex(vertex), measure))
    }

    /// Lifts a vertex of the part, and returns the update. Returns None if the vertex is served. It fails with `NotMine` if
    /// and only if the vertex is outside the part, and otherwise only if there is no memory for the update; then nothing
    /// has changed.
    pub fn lift(&mut self, v: Vertex) -> Result<Option<Update>, WorkerFault>
        ensures lifted { IfOk result (λ o. IfSome o (λ u. (u.vertex ≡ v) × Lifts self.old self.new (u ∷ []))) }
        ensures served { IfOk result (λ o. IfNone o
            (IsServed self.old.bounds (part_line self.old.lines) self.old.map v × (self.new ≡ self.old))) }
        ensures others { (self.new.kept ≡ self.old.kept) × (self.new.lifted ≡ self.old.lifted) }
        ensures mine { OnOk result (IsSome (part_line self.old.lines v)) }
        ensures refused { IfErr result (λ e. (e ≡ WorkerFault.OutOfMemory)
            ⊎ ((e ≡ WorkerFault.NotMine) × ¬ (IsSome (part_line self.old.lines v)))) }
        ensures same { OnErr result (self.new ≡ self.old) }
    {
        if !self.holds(v) {
            return Err(WorkerFault::NotMine);
        }
        let mut measure = Measure::zero(*self.kept.allocator(), self.lifter.bounds())?;
        if !self.lifter.lift(v) {
            return Ok(None);
        }
        self.lifter.copy_to(v, &mut measure);
        Ok(Some(Update { vertex: v, measure }))
    }

    /// Makes at most `budget` lifts in the part, and fewer only if no vertex can be lifted any more. It fails only if
    /// memory runs out; then the lifts so far stay, and their updates are in `kept`.
    pub fn lift_some(&mut self, budget: u32) -> Result<Lifted, WorkerFault>
        ensures turn { IfOk result (λ l. IsTurn self.old self.new budget l.quiet l.updates.items) }
        ensures none_kept { OnOk result (self.new.kept ≡ []) }
        ensures memory { IfErr result (λ e. e ≡ WorkerFault.OutOfMemory) }
        ensures broken_off { OnErr result (Lifts self.old self.new self.new.kept × (length self.new.kept ≤ budget)) }
        ensures lifted { self.new.lifted ≡ self.old.lifted }
    {
        self.kept.clear();
        let quiet = lift_some(&mut self.lifter, &mut self.kept, budget)?;
        let alloc = *self.kept.allocator();
        let updates = mem::replace(&mut self.kept, Vec::new(alloc));
        Ok(Lifted { quiet, updates })
    }

    /// Makes lifts as `lift_some` does, but without updates, and so without taking memory. After that `lifted` has the
    /// vertices that this turn lifted. Returns whether no vertex of the part can be lifted.
    pub fn lift_turn(&mut self, budget: u32) -> bool
        ensures { IsListedTurn self.old self.new budget result }
    {
        self.lifted.clear();
        let quiet = lift_turn(&mut self.lifter, &mut self.lifted, budget);
        self.lifted.sort();
        quiet
    }

    /// Returns the measure of a vertex, which must be below the number of vertices.
    pub fn get(&self, v: Vertex) -> View<'_>
        requires { v < length self.now.map }
        ensures value { measure_in result ≡ measure_at self.now.map v }
        ensures fits { Fits self.now.bounds (measure_in result) }
    {
        let lifter = &self.lifter;
        lifter.map.get(v)
    }

    /// Returns the number of vertices of the game.
    pub fn len(&self) -> u32
        ensures value { result ≡ length self.now.map }
        ensures worker { IsWorker self.now }
    {
        self.lifter.len()
    }

    /// Returns the bounds of the measures.
    pub fn bounds(&self) -> &Bounds
        ensures { result.now ≡ self.now.bounds }
    {
        self.lifter.bounds()
    }

    /// Whether a vertex is in the part.
    pub fn holds(&self, v: Vertex) -> bool
        ensures { IsTrue result ↔ IsSome (part_line self.now.lines v) }
    {
        self.lifter.holds(v)
    }

    /// Returns the updates of a `lift_some` that failed, in the order in which they were made. There are none before the
    /// first one, and none after one that succeeded.
    pub fn kept(&self) -> &[Update]
        ensures { result.now ≡ self.now.kept }
    {
        &self.kept
    }

    /// Returns the vertices that the last `lift_turn` lifted, each once, in rising order. There are none before the first
    /// one.
    pub fn lifted(&self) -> &[Vertex]
        ensures { result.now ≡ self.now.lifted }
    {
        self.lifted.as_slice()
    }
}
