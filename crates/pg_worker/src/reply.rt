//! Writes replies.

ghost use Rattle.std.specs.Prelude.{◌≡◌, ℕ, ◌+◌, ◌<◌, ◌≤◌, ◌++◌, [], List, All, length, map, take, IfOk, OnOk, OnErr};
ghost use Rattle.pg_wire.specs.Spelling.{spelling, longest};
ghost use Rattle.pg_wire.specs.Measured.{frame_of};
ghost use Rattle.pg_wire.specs.Mirrors.Buffers.{Extends};
ghost use Rattle.pg_worker.specs.Turns.{report, frame_size, Packs, lifted_measures};
ghost use Rattle.pg_worker.specs.Mirrors.Replies.{measures_of};

use crate::Worker;
use pg_arena::Vertex;
use pg_coord_partition::push;
use pg_wire::{ValueKind, ValuesWriter};
use std::alloc::AllocError;

/// Appends a report.
pub fn put_report(status: u8, code: u8, out: &mut Vec<u8>) -> Result<(), AllocError>
    ensures ok { OnOk result (out.new.items ≡ out.old.items ++ report status code) }
    ensures err { OnErr result (out.new.items ≡ out.old.items) }
{
    out.extend_from_slice(&[0, 0, 0, 3, 5, status, code])
}

/// Appends one frame with the measures of as many of these vertices as fit in it, from the first on, and returns their
/// number.
fn put_frame(
    worker: &Worker,
    kind: ValueKind,
    vertices: &[Vertex],
    out: &mut Vec<u8>,
) -> Result<usize, AllocError>
    requires few { length worker.now.bounds ≤ 32768 }
    requires within { All (λ v. v < length worker.now.map) vertices.now }
    requires some { 0 < length vertices.now }
    ensures count { IfOk result (λ n. (1 ≤ n) × (n ≤ length vertices.now)) }
    ensures frame { IfOk result (λ n. out.new.items
        ≡ out.old.items ++ spelling
        (frame_of kind (length worker.now.bounds) (measures_of worker.now.map (take n vertices.now)))) }
    ensures within { IfOk result (λ n. frame_size kind (length worker.now.bounds)
        (measures_of worker.now.map (take n vertices.now)) ≤ longest) }
    ensures full { IfOk result (λ n. n < length vertices.now
        → longest < frame_size kind (length worker.now.bounds)
        (measures_of worker.now.map (take (n + 1) vertices.now))) }
    ensures kept { Extends out.old.items out.new.items }
{
    let width = worker.bounds().pairs().len() as u32;
    let mut writer = ValuesWriter::begin(kind, width, out)?;
    for (n, v) in vertices.iter().enumerate() {
        let fits = push(&mut writer, *v, worker.get(*v), out)?;
        if !fits {
            writer.finish(out);
            return Ok(n);
        }
    }
    writer.finish(out);
    Ok(vertices.len())
}

/// Appends frames with the measures of the vertices that were lifted in the last turn.
pub fn put_lifted(worker: &Worker, kind: ValueKind, out: &mut Vec<u8>) -> Result<(), AllocError>
    requires few { length worker.now.bounds ≤ 32768 }
    requires within { All (λ v. v < length worker.now.map) worker.now.lifted }
    ensures packs { OnOk result ((bytes : List ℕ)
        × Packs kind (length worker.now.bounds) (lifted_measures worker.now) bytes
        × (out.new.items ≡ out.old.items ++ bytes)) }
    ensures kept { Extends out.old.items out.new.items }
{
    let mut rest = worker.lifted();
    while !rest.is_empty() {
        let count = put_frame(worker, kind, rest, out)?;
        let (_, after) = rest.split_at(count);
        rest = after;
    }
    Ok(())
}
