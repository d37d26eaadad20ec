//! Sets workers up for their parts.

ghost use Rattle.std.specs.Prelude.{◌≡◌, ◌↔◌, ℕ, ◌∷◌, ◌+◌, ◌<◌, ◌≤◌, List, Some, Ok, length, IfOk, IfErr, OnOk, true, false};
ghost use Rattle.pg_map.specs.Maps.{MapValue};
ghost use Rattle.pg_wire.specs.declared.frame.VertexLine.{VertexLine};
ghost use Rattle.pg_wire.specs.Bytes.{Spells};
ghost use Rattle.pg_coord_partition.specs.Frames.{kind_of};
ghost use Rattle.pg_coord_partition.specs.Links.{refusal};
ghost use Rattle.pg_coord_rounds.specs.Mirrors.Tasks.{IsClosedMap};
ghost use Rattle.pg_coord_rounds.specs.Mirrors.Lines.{AreWritten, SpellsLines};
ghost use Rattle.pg_coord_rounds.specs.Mirrors.Telling.{TellsAfter, TellsDense, AnswersSetUp, acceptance, told_with};

use crate::sending::{receive_frame, send_frame};
use crate::task::Task;
use pg_arena::Vertex;
use pg_coord_partition::{Link, LinkFault, fill_line, setup_of};
use pg_wire::{Frame, ValueKind, VerticesWriter};
use std::alloc::AllocError;

/// The number of bytes of lines after which a frame is sent.
const BATCH: usize = 65_536;

/// The number of bytes before the lines of a frame: its length, its kind and the count.
const FRONT: usize = 9;

/// Returns the version of the wire format in which values go in frames of this kind.
fn version_of(kind: ValueKind) -> u8
    ensures range { (1 ≤ result) × (result ≤ 2) }
    ensures kind { kind_of result ≡ kind }
{
    match kind {
        ValueKind::Dense => 1,
        ValueKind::Sparse => 2,
    }
}

/// Sends a set-up in the version of this kind of frames.
fn send_setup<L: Link>(
    task: &Task<'_>,
    link: &mut L,
    kind: ValueKind,
    buffer: &mut Vec<u8>,
) -> Result<(), LinkFault>
    ensures honest { L.is_honest link.old → L.is_honest link.new }
    ensures under { OnOk result (L.is_honest link.old → (h : MapValue) → IsClosedMap task.now h → L.is_under link.new h) }
    ensures told { (left : List (List ℕ)) → L.told link.old ≡ Some left
        → TellsAfter (told_with kind left) (L.told link.new) result }
{
    let setup = setup_of(task.alloc(), version_of(kind), task.game(), task.bounds())?;
    pg_wire::laws::few_bounds();
    send_frame(link, &Frame::Setup(setup), buffer)?;
    Ok(())
}

/// Sends a set-up of version 1 to a worker that was started anew.
fn send_older_setup<L: Link>(
    task: &Task<'_>,
    link: &mut L,
    buffer: &mut Vec<u8>,
) -> Result<(), LinkFault>
    requires anew { L.is_anew link.old }
    ensures honest { L.is_honest link.old → L.is_honest link.new }
    ensures under { OnOk result (L.is_honest link.old → (h : MapValue) → IsClosedMap task.now h → L.is_under link.new h) }
    ensures told { (left : List (List ℕ)) → L.told link.old ≡ Some left → TellsAfter left (L.told link.new) result }
{
    send_setup(task, link, ValueKind::Dense, buffer)
}

/// Returns whether the worker accepts a set-up of version 2, by its one reply. Any other reply is a failure of the link:
/// the answer is `Failed`.
fn answer(frame: &Frame) -> Result<bool, LinkFault>
    ensures accepted { result ≡ Ok true ↔ frame.now ≡ acceptance }
    ensures refused { result ≡ Ok false ↔ frame.now ≡ refusal }
    ensures neither { IfErr result (λ e. e ≡ LinkFault.Failed) }
{
    match frame {
        Frame::Report(report) => match (report.status, report.code) {
            (1, 0) => Ok(true),
            (2, 18) => Ok(false),
            _ => Err(LinkFault::Failed),
        },
        _ => Err(LinkFault::Failed),
    }
}

/// Returns whether the worker accepts a set-up of version 2, by its one reply. If the reply is neither an acceptance nor a
/// refusal, the call is `Failed`.
fn accepts<L: Link>(task: &Task<'_>, link: &mut L, buffer: &mut Vec<u8>) -> Result<bool, LinkFault>
    ensures honest { L.is_honest link.old → L.is_honest link.new }
    ensures under { L.is_honest link.old → (h : MapValue) → L.is_under link.old h → L.is_under link.new h }
    ensures told { (next : List ℕ) (left : List (List ℕ)) → L.told link.old ≡ Some (next ∷ left)
        → AnswersSetUp next left (L.told link.new) result }
    ensures came { result ≡ Ok true → Spells acceptance buffer.new.items }
{
    match receive_frame(task.alloc(), link, buffer) {
        Ok(frame) => answer(&frame),
        Err(fault) => Err(fault),
    }
}

/// Sends a set-up, of version 2 as long as `kind` is `Sparse`. If the worker refuses that one, restarts it and sends a
/// set-up of version 1, as for every later set-up. If `kind` is still `Sparse` afterwards, the last frame that came is the
/// acceptance.
fn agree<L: Link>(
    task: &Task<'_>,
    link: &mut L,
    kind: &mut ValueKind,
    buffer: &mut Vec<u8>,
) -> Result<(), LinkFault>
    ensures honest { L.is_honest link.old → L.is_honest link.new }
    ensures under { OnOk result (L.is_honest link.old → (h : MapValue) → IsClosedMap task.now h → L.is_under link.new h) }
    ensures told { (left : List (List ℕ)) → L.told link.old ≡ Some left
        → TellsDense left (L.told link.new) kind.new result }
    ensures accepted { OnOk result (kind.new ≡ ValueKind.Sparse → Spells acceptance buffer.new.items) }
{
    send_setup(task, link, *kind, buffer)?;
    if *kind == ValueKind::Dense || accepts(task, link, buffer)? {
        return Ok(());
    }
    *kind = ValueKind::Dense;
    link.restart()?;
    send_older_setup(task, link, buffer)?;
    Ok(())
}

/// Appends the line of a vertex to a frame, in which there is room for it.
fn push_line(
    task: &Task<'_>,
    v: Vertex,
    writer: &mut VerticesWriter,
    successors: &mut Vec<u32>,
    out: &mut Vec<u8>,
) -> Result<(), AllocError>
    requires v { v < length task.now.game }
    requires short { length out.old.items ≤ 8388608 }
    requires written { (ls : List VertexLine) × AreWritten task.now writer.old v ls out.old.items }
    ensures { OnOk result ((ls : List VertexLine) × AreWritten task.now writer.new (v + 1) ls out.new.items) }
{
    let head = fill_line(task.game(), v, successors)?;
    let fits = writer.push(head, successors.as_slice(), out)?;
    prove!(fits);
    Ok(())
}

/// Writes one frame with lines of a worker's part, from the vertex `first` on, until it has 65,536 bytes of lines. Returns
/// the vertex after the last one that it looked at, and whether the frame has a line.
fn write_lines(
    task: &Task<'_>,
    worker: u32,
    first: usize,
    successors: &mut Vec<u32>,
    out: &mut Vec<u8>,
) -> Result<(usize, bool), AllocError>
    requires { first < length task.now.game }
    ensures next { IfOk result (λ x. first < x.0) }
    ensures frame { OnOk result (SpellsLines task.now out.new.items) }
{
    out.clear();
    let mut writer = VerticesWriter::begin(out)?;
    for number in first..task.game().len() {
        let v = Vertex(number as u32);
        if task.cut().worker_of(v) != worker {
            continue;
        }
        push_line(task, v, &mut writer, successors, out)?;
        if out.len() >= FRONT + BATCH {
            writer.finish(out);
            return Ok((number + 1, true));
        }
    }
    let some = out.len() > FRONT;
    writer.finish(out);
    Ok((task.game().len(), some))
}

/// Sends the lines of a worker's part.
fn send_part<L: Link>(
    task: &Task<'_>,
    link: &mut L,
    worker: u32,
    buffer: &mut Vec<u8>,
) -> Result<(), LinkFault>
    ensures honest { L.is_honest link.old → L.is_honest link.new }
    ensures under { OnOk result (L.is_honest link.old → (h : MapValue) → IsClosedMap task.now h
        → L.is_under link.old h → L.is_under link.new h) }
    ensures told { (left : List (List ℕ)) → L.told link.old ≡ Some left → TellsAfter left (L.told link.new) result }
{
    let mut successors = Vec::new(task.alloc());
    let mut next = 0;
    'frames: while next < task.game().len() {
        let (after, some) = write_lines(task, worker, next, &mut successors, buffer)?;
        if some {
            link.send(buffer.as_slice())?;
        }
        next = after;
    }
    Ok(())
}

/// Sets a worker up for its part. `kind` becomes the kind of version 1 if the worker refuses version 2.
pub fn set_up<L: Link>(
    task: &Task<'_>,
    link: &mut L,
    worker: u32,
    kind: &mut ValueKind,
    buffer: &mut Vec<u8>,
) -> Result<(), LinkFault>
    ensures honest { L.is_honest link.old → L.is_honest link.new }
    ensures under { OnOk result (L.is_honest link.old → (h : MapValue) → IsClosedMap task.now h → L.is_under link.new h) }
    ensures told { (left : List (List ℕ)) → L.told link.old ≡ Some left
        → TellsDense left (L.told link.new) kind.new result }
{
    agree(task, link, kind, buffer)?;
    send_part(task, link, worker, buffer)?;
    Ok(())
}
