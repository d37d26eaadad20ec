//! Sends values to a worker.

ghost use Rattle.std.specs.Prelude.{◌≡◌, ◌≤◌, ◌<◌, ℕ, List, All, Some, length, IfOk, OnOk};
ghost use Rattle.pg_map.specs.Maps.{MapValue, MapAtMost};
ghost use Rattle.pg_wire.specs.Measured.{Measured};
ghost use Rattle.pg_coord_rounds.specs.Mirrors.Sent.{IsWritten, SpellsMeasures};
ghost use Rattle.pg_coord_rounds.specs.Mirrors.Telling.{TellsAfter};

use crate::task::Task;
use pg_arena::Vertex;
use pg_coord_partition::{Link, LinkFault, push};
use pg_map::MeasureMap;
use pg_wire::{ValueKind, ValuesWriter};
use std::alloc::AllocError;

/// A worker to which values are sent.
#[derive(Clone, Copy)]
pub struct Recipient {
    pub worker: u32,
    /// The kind of frames in which it takes values.
    pub kind: ValueKind,
    /// Whether it must also be sent vertices of its own part: those that it didn't send.
    pub own: bool,
}

/// Whether a worker needs to know the measure of a vertex.
fn is_for(to: Recipient, task: &Task<'_>, v: Vertex) -> bool
    requires { v < length task.now.game }
{
    if task.cut().worker_of(v) == to.worker {
        to.own
    } else {
        task.subscribers().include(to.worker, v)
    }
}

/// Writes the measure of a vertex, unless the vertex is below `next` or the frame is full. Returns whether it wrote the
/// measure.
fn push_next(
    writer: &mut ValuesWriter,
    next: &mut u64,
    map: &MeasureMap,
    v: Vertex,
    out: &mut Vec<u8>,
) -> Result<bool, AllocError>
    requires v { v < length map.now.measures }
    requires few { length map.now.bounds ≤ 32768 }
    ensures of { (writer.new.kind ≡ writer.old.kind) × (writer.new.width ≡ writer.old.width) }
    ensures written { (ms : List Measured) → IsWritten map.now writer.old next.old ms out.old.items
        → OnOk result ((more : List Measured) × IsWritten map.now writer.new next.new more out.new.items) }
{
    if u64::from(v.0) < *next {
        return Ok(false);
    }
    let fits = push(writer, v, map.get(v), out)?;
    if fits {
        *next = u64::from(v.0) + 1;
    }
    Ok(fits)
}

/// Writes one frame with the measures of those of the vertices that a worker needs to know, from the first one on, as long
/// as they rise and the frame isn't full. Returns the number of vertices that this covers, and whether one of them was for
/// the worker.
fn write_frame(
    to: Recipient,
    task: &Task<'_>,
    map: &MeasureMap,
    vertices: &[Vertex],
    out: &mut Vec<u8>,
) -> Result<(usize, bool), AllocError>
    requires bounds { map.now.bounds ≡ task.now.bounds }
    requires size { length map.now.measures ≡ length task.now.game }
    requires within { All (λ v. v < length map.now.measures) vertices.now }
    ensures count { IfOk result (λ x. x.0 ≤ length vertices.now) }
    ensures frame { OnOk result (SpellsMeasures to.kind map.now out.new.items) }
{
    out.clear();
    let mut writer = ValuesWriter::begin(to.kind, task.width(), out)?;
    let mut next = 0;
    for (count, v) in vertices.iter().enumerate() {
        if is_for(to, task, *v) && !push_next(&mut writer, &mut next, map, *v, out)? {
            writer.finish(out);
            return Ok((count, next > 0));
        }
    }
    writer.finish(out);
    Ok((vertices.len(), next > 0))
}

/// Sends the measures of those of the vertices that a worker needs to know.
pub fn send_values<L: Link>(
    to: Recipient,
    task: &Task<'_>,
    link: &mut L,
    map: &MeasureMap,
    vertices: &[Vertex],
    buffer: &mut Vec<u8>,
) -> Result<(), LinkFault>
    requires bounds { map.now.bounds ≡ task.now.bounds }
    requires size { length map.now.measures ≡ length task.now.game }
    requires within { All (λ v. v < length map.now.measures) vertices.now }
    ensures honest { L.is_honest link.old → L.is_honest link.new }
    ensures under { OnOk result (L.is_honest link.old → (h : MapValue) → MapAtMost map.now.measures h.measures
        → L.is_under link.old h → L.is_under link.new h) }
    ensures told { (left : List (List ℕ)) → L.told link.old ≡ Some left → TellsAfter left (L.told link.new) result }
{
    let mut rest = vertices;
    // Each frame has at least one of the vertices.
    'values: for _ in 0..vertices.len() {
        if rest.is_empty() {
            break;
        }
        let (count, some) = write_frame(to, task, map, rest, buffer)?;
        if some {
            link.send(buffer.as_slice())?;
        }
        let (_, after) = rest.split_at(count);
        rest = after;
    }
    Ok(())
}
