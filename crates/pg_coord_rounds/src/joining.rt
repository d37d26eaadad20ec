//! Joins the measures of frames with the coordinator's map.

ghost use Rattle.std.specs.Prelude.{◌≡◌, ◌↔◌, ◌<◌, IsTrue, length, List, All};
ghost use Rattle.pg_measure.specs.Measures.{Fits};
ghost use Rattle.pg_measure.specs.Views.{measure_in};
ghost use Rattle.pg_wire.specs.Measured.{Measured};
ghost use Rattle.pg_wire.specs.Left.{IsLeft};
ghost use Rattle.pg_coord_partition.specs.Frames.{Joins};
ghost use Rattle.pg_coord_rounds.specs.PartMeasures.{IsOfPart};
ghost use Rattle.pg_coord_rounds.specs.Mirrors.CoordinatorMaps.{Moves};
ghost use Rattle.pg_coord_rounds.specs.Mirrors.Joined.{JoinsFrame};

use crate::coordinator_map::CoordinatorMap;
use pg_arena::Vertex;
use pg_coord_partition::{Cut, fits, lent_row};
use pg_map::View;
use pg_measure::Bounds;
use pg_wire::{ValueKind, ValuesReader};

/// Whether a measure fits the bounds, and its vertex is in the worker's part.
fn is_of_part(bounds: &Bounds, cut: &Cut, worker: u32, vertex: u32, m: View) -> bool
    ensures { IsTrue result ↔ IsOfPart bounds.now cut.now worker (vertex, measure_in m.entry) }
{
    (vertex as usize) < cut.vertices() && cut.worker_of(Vertex(vertex)) == worker && fits(m, bounds)
}

/// Whether the measures that are left of a frame belong to the worker's part. The row has as many places as the frame's
/// width.
fn are_of_part(
    bounds: &Bounds,
    cut: &Cut,
    worker: u32,
    mut values: ValuesReader,
    row: &mut [u32],
) -> bool
    requires { length row.old ≡ values.width }
    ensures { (ms : List Measured) → IsLeft values.entry ms → IsTrue result ↔ All (IsOfPart bounds.now cut.now worker) ms }
{
    'each: while let Some((vertex, is_top)) = values.next(row) {
        if !is_of_part(bounds, cut, worker, vertex, lent_row(is_top, row)) {
            return false;
        }
    }
    true
}

/// Joins the measures that are left of a frame with the map. The row has as many places as the frame's width.
fn join_read(coordinator: &mut CoordinatorMap, mut values: ValuesReader, row: &mut [u32])
    requires row { length row.old ≡ values.width }
    requires fit { (ms : List Measured) × IsLeft values ms
        × All (λ m. (m.0 < length coordinator.old.map.measures) × Fits coordinator.old.map.bounds m.1) ms }
    ensures moves { Moves coordinator.old coordinator.new }
    ensures joins { (ms : List Measured) → IsLeft values.entry ms → Joins coordinator.old.map.measures ms coordinator.new.map.measures }
{
    'each: while let Some((vertex, is_top)) = values.next(row) {
        coordinator.raise(Vertex(vertex), lent_row(is_top, row));
    }
}

/// Whether a frame's width is the number of bounds.
fn is_as_wide(width: u32, bounds: &Bounds) -> bool
    ensures { IsTrue result ↔ (width ≡ length bounds.now) }
{
    width as usize == bounds.pairs().len()
}

/// Joins the measures of a frame with the map. The row has a place for each bound. Returns false if and only if the frame
/// isn't of the kind that was agreed on, its width isn't the number of bounds, or a measure doesn't belong to the worker's
/// part; then none is joined.
pub fn join_frame(
    coordinator: &mut CoordinatorMap,
    cut: &Cut,
    worker: u32,
    kind: ValueKind,
    values: ValuesReader,
    row: &mut [u32],
) -> bool
    requires cut { length cut.now.numbers ≡ length coordinator.old.map.measures }
    requires row { length row.old ≡ length coordinator.old.map.bounds }
    requires left { (ms : List Measured) × IsLeft values ms }
    ensures moves { Moves coordinator.old coordinator.new }
    ensures joins { (ms : List Measured) → IsLeft values.entry ms
        → JoinsFrame kind cut.now worker coordinator.old coordinator.new values.entry.kind values.entry.width ms result }
{
    if values.kind() != kind {
        return false;
    }
    if !is_as_wide(values.width(), coordinator.map.bounds()) {
        return false;
    }
    if !are_of_part(coordinator.map.bounds(), cut, worker, values, row) {
        return false;
    }
    join_read(coordinator, values, row);
    true
}
