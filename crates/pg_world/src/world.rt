//! Worlds.

ghost use Rattle.std.specs.Prelude.{◌≡◌, ◌≤◌, ◌<◌, ℕ, [], List, Option, None, length, map, replicate, All, IfOk, IfErr, OnOk, OnErr, MatchBool};
ghost use Rattle.pg_measure.specs.Measures.{Fits};
ghost use Rattle.pg_measure.specs.Games.{IsBoundsOf};
ghost use Rattle.pg_measure.specs.Views.{measure_in};
ghost use Rattle.pg_map.specs.Maps.{measure_at, IsNeverAbove};
ghost use Rattle.pg_map.specs.Lines.{game_line};
ghost use Rattle.pg_world.specs.Updates.{update_value, update_at};
ghost use Rattle.pg_world.specs.Worlds.{new_world, taken_of, IsMapOf, Lifts, Steps, taking, forgetting, making, cut_fault, refusal, IsRefusedBy, IsEventOf, Runs, StopsAt};
ghost use Rattle.pg_world.specs.Mirrors.Kept.{shown_by, HasZero, IsWorld, LiftsTo, Raises, IsCovered};

use crate::event::Event;
use crate::fault::WorldFault;
use crate::map_laws::of_maps;
use crate::replica::{ReplicaMap, clear, no_updates, set_greatest};
use crate::room::{forget, make_room, note, push_in_room};
use pg_arena::{Game, Vertex};
use pg_map::{Update, View};
use pg_measure::{Bounds, Measure};
use pg_worker::Cut;
use std::alloc::Global;
use std::marker::Model;

/// A game cut among workers, with a coordinator: the updates that these replicas made, and those that each of them took.
/// Contracts see the game, its bounds, the cut, all updates ever made, and the numbers of those that each replica took
/// since its last restart; its map is their join. Measures are totally ordered, so the map has at each vertex the greatest
/// update of the vertex that the replica took: `greatest` has its number, for each replica and vertex.
#[derive(Drop)]
pub struct World {
    game: Game,
    bounds: Bounds,
    cut: Cut,
    zero: Measure,
    updates: Vec<Update>,
    taken: Vec<Vec<usize>>,
    greatest: Vec<Vec<usize>>,
}

impl Model for World {
    ghost use Rattle.std.specs.Prelude.{map};
    ghost use Rattle.pg_world.specs.Worlds.{WorldValue};
    ghost use Rattle.pg_world.specs.Mirrors.Kept.{viewed, AreReplicas};

    ghost Value = { WorldValue };

    ghost view = { λ w. viewed w.game w.bounds w.cut w.updates.items w.taken.items };

    ghost invariant = { λ w. AreReplicas (viewed w.game w.bounds w.cut w.updates.items w.taken.items) w.zero
        (map (λ g. g.items) w.greatest.items) };
}

impl World {
    /// Makes the world in which nothing has happened. It fails with `CutMismatch` if and only if the cut doesn't have the
    /// vertices of the game, and otherwise only if memory runs out. It uses up the game and the cut in any case.
    pub fn new(alloc: Global, game: Game, cut: Cut) -> Result<World, WorldFault>
        ensures new { IfOk result (λ w. IsBoundsOf game w.bounds × (w ≡ new_world game w.bounds cut)) }
        ensures cut { OnOk result (length cut.numbers ≡ length game) }
        ensures refused { IfErr result (λ fault. IsRefusedBy fault (cut_fault game cut)) }
    {
        if cut.vertices() != game.len() {
            return Err(WorldFault::CutMismatch);
        }
        of_maps();
        let bounds = Bounds::of(alloc, &game)?;
        let zero = Measure::zero(alloc, &bounds)?;
        let replicas = cut.workers() as usize + 1;
        let taken = nothing_taken(alloc, replicas)?;
        let greatest = no_updates(alloc, replicas, game.len())?;
        Ok(World {
            game,
            bounds,
            cut,
            zero,
            updates: Vec::new(alloc),
            taken,
            greatest,
        })
    }

    /// Returns the game.
    pub fn game(&self) -> &Game
        ensures value { result.now ≡ self.now.game }
        ensures bounds { IsBoundsOf self.now.game self.now.bounds }
    {
        &self.game
    }

    /// Returns the number of workers. They are the replicas 1, 2, ..; replica 0 is the coordinator.
    pub fn workers(&self) -> u32
        ensures { result ≡ self.now.cut.workers }
    {
        self.cut.workers()
    }

    /// Returns the measure of a vertex in the map of a replica: the join of the updates that the replica took since its
    /// last restart. The replica must be at most the number of workers, and the vertex one of the game.
    pub fn map_of(&self, replica: u32, v: Vertex) -> View<'_>
        requires replica { replica ≤ self.now.cut.workers }
        requires v { v < length self.now.game }
        ensures value { (f : List (Option (List ℕ))) → IsMapOf self.now replica f → measure_in result ≡ measure_at f v }
        ensures map { (f : List (Option (List ℕ))) × IsMapOf self.now replica f
            × IsNeverAbove self.now.bounds (game_line self.now.game) f }
        ensures fits { Fits self.now.bounds (measure_in result) }
    {
        of_maps();
        self.map(replica).measure(v).view()
    }

    /// Returns the numbers of the updates that a replica took since its last restart, in order. Its own are among them, and
    /// one that it took twice appears twice. The replica must be at most the number of workers.
    pub fn taken_of(&self, replica: u32) -> &[usize]
        requires { replica ≤ self.now.cut.workers }
        ensures { result.now ≡ taken_of self.now replica }
    {
        &self.taken[replica as usize]
    }

    /// Returns the updates ever made, in order.
    pub fn updates(&self) -> &[Update]
        ensures { map update_value result.now ≡ self.now.updates }
    {
        &self.updates
    }

    /// Makes an event happen. It fails if and only if the world refuses the event, and then with the reason, or memory runs
    /// out; the world is then as before. The vertex of a lift must be one of the game.
    pub fn step(&mut self, event: &Event) -> Result<(), WorldFault>
        requires { IsEventOf self.old.game event.now }
        ensures ok { OnOk result ((refusal self.old event.now ≡ None) × Steps self.old event.now self.new) }
        ensures refused { IfErr result (λ fault. IsRefusedBy fault (refusal self.old event.now)) }
        ensures same { OnErr result (self.new ≡ self.old) }
    {
        match *event {
            Event::Lift(worker, v) => self.lift(worker, v),
            Event::Deliver(replica, number) => self.deliver(replica, number),
            Event::Restart(worker) => self.restart(worker),
            Event::CoordinatorLift(v) => self.lift_in(0, v),
        }
    }

    /// Makes events happen one after another, up to the first one that is refused. It fails with the position of that
    /// event, from 0, and the reason, and then the world is as it was before that event. The vertices of lifts must be
    /// vertices of the game.
    pub fn run(&mut self, events: &[Event]) -> Result<(), (usize, WorldFault)>
        requires { All (IsEventOf self.old.game) events.now }
        ensures ok { OnOk result (Runs self.old events.now self.new) }
        ensures stops { IfErr result (λ x. StopsAt self.old events.now x.0 x.1 self.new) }
    {
        for (place, event) in events.iter().enumerate() {
            if let Err(fault) = self.step(event) {
                return Err((place, fault));
            }
        }
        Ok(())
    }

    /// Returns the map of a replica.
    fn map(&self, replica: u32) -> ReplicaMap<'_>
        requires { replica ≤ self.now.cut.workers }
        ensures bounds { result.bounds.now ≡ self.now.bounds }
        ensures updates { map update_value result.updates.now ≡ self.now.updates }
        ensures zero { HasZero result }
        ensures map { IsMapOf self.now replica (shown_by result) }
        ensures size { length result.greatest.now ≡ length self.now.game }
        ensures world { IsWorld self.now }
    {
        ReplicaMap {
            bounds: &self.bounds,
            zero: &self.zero,
            updates: &self.updates,
            greatest: &self.greatest[replica as usize],
        }
    }

    /// Lets the worker lift a vertex.
    fn lift(&mut self, worker: u32, v: Vertex) -> Result<(), WorldFault>
        requires { v < length self.old.game }
        ensures ok { OnOk result ((refusal self.old (Event.Lift worker v) ≡ None) × Lifts self.old worker v self.new) }
        ensures refused { IfErr result (λ fault. IsRefusedBy fault (refusal self.old (Event.Lift worker v))) }
        ensures same { OnErr result (self.new ≡ self.old) }
    {
        if worker == 0 || worker > self.cut.workers() {
            return Err(WorldFault::NoSuchReplica(worker));
        }
        if self.cut.worker_of(v) != worker {
            return Err(WorldFault::NotMine(worker, self.game.identifier(v)));
        }
        self.lift_in(worker, v)
    }

    /// Lets a replica lift a vertex in its map.
    fn lift_in(&mut self, replica: u32, v: Vertex) -> Result<(), WorldFault>
        requires v { v < length self.old.game }
        requires replica { replica ≤ self.old.cut.workers }
        ensures ok { OnOk result (Lifts self.old replica v self.new) }
        ensures memory { IfErr result (λ fault. fault ≡ WorldFault.OutOfMemory) }
        ensures same { OnErr result (self.new ≡ self.old) }
    {
        match self.map(replica).lift(&self.game, v)? {
            Some(measure) => self.make(replica, Update { vertex: v, measure }),
            None => Ok(()),
        }
    }

    /// Lets a replica make an update by a lift, and take it.
    fn make(&mut self, replica: u32, update: Update) -> Result<(), WorldFault>
        requires replica { replica ≤ self.old.cut.workers }
        requires v { update.vertex < length self.old.game }
        requires lifts { LiftsTo self.old replica (update_value update) }
        ensures ok { OnOk result (self.new ≡ making self.old replica (update_value update)) }
        ensures memory { IfErr result (λ fault. fault ≡ WorldFault.OutOfMemory) }
        ensures same { OnErr result (self.new ≡ self.old) }
    {
        of_maps();
        let place = replica as usize;
        make_room(&mut self.updates, &mut self.taken, place)?;
        let made = self.updates.len();
        set_greatest(&mut self.greatest, place, update.vertex, made);
        note(&mut self.taken, place, made);
        push_in_room(&mut self.updates, update);
        Ok(())
    }

    /// Lets a replica take an update.
    fn deliver(&mut self, replica: u32, number: usize) -> Result<(), WorldFault>
        ensures ok { OnOk result ((refusal self.old (Event.Deliver replica number) ≡ None)
            × (self.new ≡ taking self.old replica number)) }
        ensures refused { IfErr result (λ fault. IsRefusedBy fault (refusal self.old (Event.Deliver replica number))) }
        ensures same { OnErr result (self.new ≡ self.old) }
    {
        if replica > self.cut.workers() {
            return Err(WorldFault::NoSuchReplica(replica));
        }
        if number >= self.updates.len() {
            return Err(WorldFault::NoSuchUpdate(number));
        }
        self.take(replica, number)
    }

    /// Lets a replica take an update that was made.
    fn take(&mut self, replica: u32, number: usize) -> Result<(), WorldFault>
        requires replica { replica ≤ self.old.cut.workers }
        requires number { number < length self.old.updates }
        ensures ok { OnOk result (self.new ≡ taking self.old replica number) }
        ensures memory { IfErr result (λ fault. fault ≡ WorldFault.OutOfMemory) }
        ensures same { OnErr result (self.new ≡ self.old) }
    {
        of_maps();
        let place = replica as usize;
        let v = self.updates[number].vertex;
        let rises = self.raises(replica, number);
        make_room(&mut self.updates, &mut self.taken, place)?;
        note(&mut self.taken, place, number);
        if rises {
            set_greatest(&mut self.greatest, place, v, number);
        }
        Ok(())
    }

    /// Whether an update is above the replica's measure at its vertex.
    fn raises(&self, replica: u32, number: usize) -> bool
        requires replica { replica ≤ self.now.cut.workers }
        requires number { number < length self.now.updates }
        ensures { let update = update_at self.now.bounds self.now.updates number in
            MatchBool result (Raises self.now replica update) (IsCovered self.now replica update) }
    {
        let update = &self.updates[number];
        let here = self.map(replica).measure(update.vertex);
        here.cmp(&update.measure).is_lt()
    }

    /// Starts a worker anew.
    fn restart(&mut self, worker: u32) -> Result<(), WorldFault>
        ensures ok { OnOk result ((refusal self.old (Event.Restart worker) ≡ None)
            × (self.new ≡ forgetting self.old worker)) }
        ensures refused { IfErr result (λ fault. IsRefusedBy fault (refusal self.old (Event.Restart worker))) }
        ensures same { OnErr result (self.new ≡ self.old) }
    {
        if worker == 0 || worker > self.cut.workers() {
            return Err(WorldFault::NoSuchReplica(worker));
        }
        of_maps();
        let place = worker as usize;
        clear(&mut self.greatest[place], &self.updates, &self.taken[place]);
        forget(&mut self.taken, place);
        Ok(())
    }
}

/// Returns, for the given number of replicas, that they have taken nothing.
fn nothing_taken(alloc: Global, replicas: usize) -> Result<Vec<Vec<usize>>, WorldFault>
    ensures taken { IfOk result (λ t. map (λ x. x.items) t.items ≡ replicate replicas []) }
    ensures memory { IfErr result (λ fault. fault ≡ WorldFault.OutOfMemory) }
{
    let mut taken = Vec::new(alloc);
    for _ in 0..replicas {
        taken.push(Vec::new(alloc))?;
    }
    Ok(taken)
}
