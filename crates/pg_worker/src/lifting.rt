//! Runs of lifts.

ghost use Rattle.std.specs.Prelude.{◌≡◌, ◌<◌, ◌≤◌, false, [], length, IfOk, OnOk, MatchBool, vec_len, vec_capacity};
ghost use Rattle.pg_map.specs.Maps.{IsClosed};
ghost use Rattle.pg_map_lift.specs.Mirrors.Lifters.{KeepsLines};
ghost use Rattle.pg_worker.specs.Mirrors.Lifts.{AreListedLifts};
ghost use Rattle.pg_worker.specs.Workers.{part_line, AreLifts};

use pg_coord_partition::VertexSet;
use pg_map::Update;
use pg_map_lift::{Lifter, Part};
use pg_measure::{Bounds, Measure};
use std::alloc::AllocError;

/// The updates of a run of lifts, in the order in which they were made, and whether no vertex of the part can be lifted any
/// more.
#[derive(Drop)]
pub struct Lifted {
    pub quiet: bool,
    pub updates: Vec<Update>,
}

/// Makes room for one more update, and takes the memory for its measure.
fn room_for_update(updates: &mut Vec<Update>, bounds: &Bounds) -> Result<Measure, AllocError>
    ensures items { updates.new.items ≡ updates.old.items }
    ensures room { OnOk result (vec_len updates.new < vec_capacity updates.new) }
    ensures width { IfOk result (λ m. m.width ≡ length bounds.now) }
{
    updates.reserve(1)?;
    Measure::zero(*updates.allocator(), bounds)
}

/// Makes at most `budget` lifts, and returns whether no vertex of the part can be lifted any more. Appends the updates in
/// order, even if it fails. It takes the memory for an update before the lift.
pub(crate) fn lift_some(
    lifter: &mut Lifter<Part>,
    updates: &mut Vec<Update>,
    budget: u32,
) -> Result<bool, AllocError>
    requires { updates.old.items ≡ [] }
    ensures same { KeepsLines lifter.old lifter.new }
    ensures lifts { AreLifts lifter.old.map.bounds
        (part_line lifter.old.lines) lifter.old.map.measures updates.new.items lifter.new.map.measures }
    ensures few { length updates.new.items ≤ budget }
    ensures quiet { IfOk result (λ quiet. MatchBool quiet
        (IsClosed lifter.old.map.bounds (part_line lifter.old.lines) lifter.new.map.measures)
        (¬ (IsClosed lifter.old.map.bounds (part_line lifter.old.lines) lifter.new.map.measures))) }
    ensures fewer { IfOk result (λ quiet. quiet ≡ false → length updates.new.items ≡ budget) }
{
    for _ in 0..budget {
        let mut measure = room_for_update(updates, lifter.bounds())?;
        let Some(v) = lifter.lift_next() else {
            lifter.watch();
            return Ok(true);
        };
        lifter.copy_to(v, &mut measure);
        updates.push_reserved(Update { vertex: v, measure });
    }
    Ok(lifter.is_quiet())
}

/// Makes at most `budget` lifts, and returns whether no vertex of the part can be lifted any more. Lists each vertex that
/// it lifts.
pub(crate) fn lift_turn(lifter: &mut Lifter<Part>, lifted: &mut VertexSet, budget: u32) -> bool
    requires room { lifted.old.count ≡ length lifter.old.map.measures }
    requires none { lifted.old.vertices ≡ [] }
    ensures same { KeepsLines lifter.old lifter.new }
    ensures room { lifted.new.count ≡ lifted.old.count }
    ensures quiet { MatchBool result
        (IsClosed lifter.old.map.bounds (part_line lifter.old.lines) lifter.new.map.measures)
        (¬ (IsClosed lifter.old.map.bounds (part_line lifter.old.lines) lifter.new.map.measures)) }
    ensures turn { AreListedLifts lifter.old.map.bounds (part_line lifter.old.lines)
        lifter.old.map.measures lifter.new.map.measures lifted.new.vertices (λ n. (n ≤ budget)
        × (result ≡ false → n ≡ budget)) }
{
    for _ in 0..budget {
        let Some(v) = lifter.lift_next() else {
            lifter.watch();
            return true;
        };
        lifted.add(v);
    }
    lifter.is_quiet()
}
