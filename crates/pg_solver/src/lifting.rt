//! Lifting to the end, as workers lift: the way that remains if no proposal is accepted.

ghost use Rattle.std.specs.Prelude.{◌≡◌, ◌<◌, length, IfOk};
ghost use Rattle.pg_map.specs.Lines.{AreWithin};
ghost use Rattle.pg_map.specs.Maps.{IsLeastProgressMeasure};
ghost use Rattle.pg_solver.specs.Mirrors.Zeros.{IsAtZero};

use pg_map::{Lines, MeasureMap};
use pg_map_lift::Lifter;
use std::alloc::{AllocError, Global};

/// Returns the least progress measure of some lines, by lifting from zeros. It fails only if memory runs out, which also covers 2^32
/// edges or more.
pub(crate) fn lifted<G: Lines + Drop>(
    alloc: Global,
    lines: G,
    zero: MeasureMap,
) -> Result<MeasureMap, AllocError>
    requires zero { IsAtZero zero }
    requires some { 0 < length zero.measures }
    requires within { AreWithin (length zero.measures) (G.line lines) }
    ensures bounds { IfOk result (λ m. m.bounds ≡ zero.bounds) }
    ensures least { IfOk result
        (λ m. IsLeastProgressMeasure m.bounds (length zero.measures) (G.line lines) m.measures) }
{
    let mut lifter = Lifter::new(alloc, lines, zero)?;
    'lifts: while let Some(_vertex) = lifter.lift_next() {}
    // called for what its contract says of the map
    let _vertices = lifter.len();
    let Lifter { map, .. } = lifter;
    Ok(map)
}
