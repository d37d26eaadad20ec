//! Adds the lines of a frame to a worker's part.

ghost use Rattle.std.specs.Prelude.{◌≡◌, ◌⊎◌, List, [], Some, All, OnOk, IfErr, length};
ghost use Rattle.pg_wire.specs.declared.frame.VertexLine.{VertexLine};
ghost use Rattle.pg_wire.specs.Lines.{frame_with};
ghost use Rattle.pg_wire.specs.LinesLeft.{AreLeft};
ghost use Rattle.pg_worker.specs.Workers.{with_lines, AreAbove, FitsGame, RefusesLines};
ghost use Rattle.pg_worker.specs.Turns.{Turn, Refuses};

use crate::session_state::SessionState;
use crate::{Worker, WorkerFault};
use pg_wire::VerticesReader;
use std::alloc::Global;

/// Adds the vertices of the lines that are left, as `Worker::add_vertices` does. The vector is for the successors of one
/// line at a time. After a refusal some of the vertices may be in the part.
fn add_read(
    worker: &mut Worker,
    mut lines: VerticesReader,
    successors: &mut Vec<u32>,
) -> Result<(), WorkerFault>
    requires { (ls : List VertexLine) × AreLeft lines ls }
    ensures added { (ls : List VertexLine) → AreLeft lines.entry ls
        → OnOk result (worker.new ≡ record worker.old { lines = with_lines worker.old.lines ls }) }
    ensures above { (ls : List VertexLine) → AreLeft lines.entry ls → OnOk result (AreAbove worker.old.lines ls) }
    ensures fit { (ls : List VertexLine) → AreLeft lines.entry ls
        → OnOk result (All (FitsGame worker.old.bounds (length worker.old.map)) ls) }
    ensures refused { (ls : List VertexLine) → AreLeft lines.entry ls
        → IfErr result (λ e. (e ≡ WorkerFault.OutOfMemory) ⊎ RefusesLines worker.old ls e) }
    ensures bounds { worker.new.bounds ≡ worker.old.bounds }
{
    'each: while let Some(head) = lines.next(successors)? {
        worker.add_vertex(head, successors)?;
    }
    Ok(())
}

/// Adds the lines that are left of a frame of vertices to the part of the session's worker. It fails with `Order` once
/// values or a Go came or if the vertices don't rise, with `BadUpdate` if a line doesn't fit the game, and with
/// `OutOfMemory`.
pub fn add_read_lines(
    alloc: Global,
    held: &mut SessionState,
    lines: VerticesReader,
) -> Result<(), WorkerFault>
    requires { (ls : List VertexLine) × AreLeft lines ls }
    ensures turn { (ls : List VertexLine) → AreLeft lines.entry ls
        → OnOk result (Turn (Some held.old) (frame_with ls) (Some held.new) []) }
    ensures refused { (ls : List VertexLine) → AreLeft lines.entry ls
        → IfErr result (λ e. (e ≡ WorkerFault.OutOfMemory) ⊎ Refuses 0 (Some held.old) (frame_with ls) e) }
{
    if held.is_started {
        return Err(WorkerFault::Order);
    }
    let mut successors = Vec::new(alloc);
    add_read(&mut held.worker, lines, &mut successors)?;
    Ok(())
}
