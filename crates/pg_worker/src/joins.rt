//! Joins the values of a frame to a worker's map.

ghost use Rattle.std.specs.Prelude.{◌≡◌, List, OnOk, IfErr, length};
ghost use Rattle.pg_wire.specs.Left.{IsLeft};
ghost use Rattle.pg_wire.specs.Measured.{Measured};
ghost use Rattle.pg_worker.specs.Turns.{CanTakeAll};
ghost use Rattle.pg_worker.specs.Mirrors.Joins.{JoinsAll};

use crate::{Worker, WorkerFault};
use pg_coord_partition::lent_row;
use pg_wire::ValuesReader;

/// Joins each of the measures that are left with the map, using a row of as many places as the width says. It fails with
/// `BadUpdate` if a vertex isn't below the number of vertices, or a measure doesn't fit the bounds; the measures before
/// that one stay joined.
pub fn join_read(
    worker: &mut Worker,
    mut values: ValuesReader,
    row: &mut [u32],
) -> Result<(), WorkerFault>
    requires { length row.old ≡ values.width }
    ensures joined { (ms : List Measured) → IsLeft values.entry ms → OnOk result (JoinsAll worker.old ms worker.new) }
    ensures fit { (ms : List Measured) → IsLeft values.entry ms → OnOk result (CanTakeAll worker.old ms) }
    ensures refused { (ms : List Measured) → IsLeft values.entry ms → IfErr result (λ e. (e ≡ WorkerFault.BadUpdate)
        × ¬ (CanTakeAll worker.old ms)) }
    ensures bounds { worker.new.bounds ≡ worker.old.bounds }
{
    'each: while let Some((vertex, is_top)) = values.next(row) {
        worker.take_value(vertex, lent_row(is_top, row))?;
    }
    Ok(())
}
