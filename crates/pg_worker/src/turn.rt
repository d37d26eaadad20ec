//! The turn of each kind of frame.

ghost use Rattle.std.specs.Prelude.{◌≡◌, ◌≤◌, ◌↔◌, ℕ, ◌++◌, ◌⊎◌, IsTrue, false, List, [], None, Some, length, MatchBool, OnErr, OnOk, IfOk, IfErr};
ghost use Rattle.pg_wire.specs.Well.{IsWell, IsSetup};
ghost use Rattle.pg_wire.specs.declared.frame.Frame.TheVariants as frames;
ghost use Rattle.pg_wire.specs.Mirrors.Buffers.{Extends};
ghost use Rattle.pg_coord_partition.specs.Frames.{kind_of};
ghost use Rattle.pg_worker.specs.Turns.{Turn, IsUpTo, Refuses, TakesValues, RefusesValues, LiftsAndTells, fresh, greeting, DoesTurn, HasRows, SpellsRows, RefusesBytes};
ghost use Rattle.pg_wire.specs.Left.{IsLeft};
ghost use Rattle.pg_wire.specs.Measured.{Measured};

use crate::joins::join_read;
use crate::lines::add_read_lines;
use crate::reply::{put_lifted, put_report};
use crate::session_state::{SessionState, replace_state};
use crate::{Worker, WorkerFault};
use pg_coord_partition::fits_worker;
use pg_wire::{Frame, Setup, ValueKind, ValuesReader, VerticesReader, WireFault};
use std::alloc::Global;

/// Appends the answer to a set-up, if its version has one, and returns the kind of frames in which values go under that
/// version.
fn greet(version: u8, out: &mut Vec<u8>) -> Result<ValueKind, WorkerFault>
    ensures kind { IfOk result (λ kind. kind ≡ kind_of version) }
    ensures reply { OnOk result (out.new.items ≡ out.old.items ++ greeting version) }
    ensures memory { IfErr result (λ e. e ≡ WorkerFault.OutOfMemory) }
    ensures kept { Extends out.old.items out.new.items }
{
    if version == 2 {
        put_report(1, 0, out)?;
        return Ok(ValueKind::Sparse);
    }
    Ok(ValueKind::Dense)
}

fn set_up(
    alloc: Global,
    highest: u8,
    setup: &Setup,
    out: &mut Vec<u8>,
) -> Result<SessionState, WorkerFault>
    requires { IsSetup setup.now }
    ensures version { OnOk result (setup.now.version ≤ highest) }
    ensures held { IfOk result (λ h. h ≡ fresh setup.now) }
    ensures reply { OnOk result (out.new.items ≡ out.old.items ++ greeting setup.now.version) }
    ensures refused { IfErr result (λ e. (e ≡ WorkerFault.OutOfMemory)
        ⊎ Refuses highest None (frames.Setup setup.now) e) }
    ensures kept { Extends out.old.items out.new.items }
{
    if setup.version > highest {
        return Err(WorkerFault::Wire(WireFault::Version));
    }
    let width = setup.bounds.as_slice().len();
    if !fits_worker(setup.vertices as usize, width) {
        return Err(WorkerFault::OutOfMemory);
    }
    let kind = greet(setup.version, out)?;
    let row = vec![in alloc; 0; width]?;
    let worker = Worker::new(alloc, setup)?;
    Ok(SessionState {
        kind,
        is_started: false,
        worker,
        row,
    })
}

/// Joins the measures that are left of a frame with the worker's map.
fn take_read(held: &mut SessionState, values: ValuesReader) -> Result<(), WorkerFault>
    ensures turn { (ms : List Measured) → IsLeft values.entry ms
        → OnOk result (TakesValues held.old values.entry.kind values.entry.width ms (Some held.new)) }
    ensures refused { (ms : List Measured) → IsLeft values.entry ms
        → IfErr result (λ e. RefusesValues held.old values.entry.kind values.entry.width ms e) }
{
    if held.kind != values.kind() {
        return Err(WorkerFault::Order);
    }
    if held.worker.bounds().pairs().len() != values.width() as usize {
        return Err(WorkerFault::BadUpdate);
    }
    join_read(&mut held.worker, values, &mut held.row)?;
    held.is_started = true;
    Ok(())
}

fn lift(held: &mut SessionState, budget: u32, out: &mut Vec<u8>) -> Result<(), WorkerFault>
    ensures turn { OnOk result ((reply : List ℕ) × LiftsAndTells held.old budget (Some held.new) reply
        × (out.new.items ≡ out.old.items ++ reply)) }
    ensures memory { IfErr result (λ e. e ≡ WorkerFault.OutOfMemory) }
    ensures kept { Extends out.old.items out.new.items }
{
    let quiet = held.worker.lift_turn(budget);
    let _count = held.worker.len();
    put_lifted(&held.worker, held.kind, out)?;
    put_report(u8::from(quiet), 0, out)?;
    held.is_started = true;
    Ok(())
}

/// Does the turn of a frame that has no rows, appends the reply, and returns whether the frame is Halt. After a fault part
/// of the reply may be in `out`, and the state that is held is unspecified.
pub fn turn(
    alloc: Global,
    highest: u8,
    held: &mut Option<SessionState>,
    frame: &Frame,
    out: &mut Vec<u8>,
) -> Result<bool, WorkerFault>
    requires well { IsWell frame.now }
    requires no_rows { ¬ (HasRows frame.now) }
    ensures version { OnOk result (IsUpTo highest frame.now) }
    ensures turn { OnOk result ((reply : List ℕ) × Turn held.old frame.now held.new reply
        × (out.new.items ≡ out.old.items ++ reply)) }
    ensures halt { IfOk result (λ halts. IsTrue halts ↔ (frame.now ≡ frames.Halt)) }
    ensures refused { IfErr result (λ e. (e ≡ WorkerFault.OutOfMemory) ⊎ Refuses highest held.old frame.now e) }
    ensures kept { Extends out.old.items out.new.items }
{
    match frame {
        Frame::Setup(setup) => {
            // its memory is there for the new worker
            replace_state(held, None);
            replace_state(held, Some(set_up(alloc, highest, setup, out)?));
            Ok(false)
        }
        Frame::Halt => {
            replace_state(held, None);
            Ok(true)
        }
        Frame::Go(go) => {
            let Some(held) = held else {
                return Err(WorkerFault::Order);
            };
            lift(held, go.budget, out)?;
            Ok(false)
        }
        _ => Err(WorkerFault::Order),
    }
}

/// Does the turn of the frame of vertices or of values that the bytes spell; it has no reply. Returns false if they spell
/// no such frame, and then nothing has changed. It reads the rows from the bytes, one after another. After a fault the
/// state that is held is unspecified.
pub fn turn_of_rows(
    alloc: Global,
    held: &mut Option<SessionState>,
    bytes: &[u8],
) -> Result<bool, WorkerFault>
    ensures rows { IfOk result (λ taken. IsTrue taken ↔ SpellsRows bytes.now) }
    ensures turn { (highest : ℕ) → IfOk result (λ taken. MatchBool taken
        (DoesTurn highest held.old bytes.now held.new false []) (held.new ≡ held.old)) }
    ensures fault { OnErr result (SpellsRows bytes.now) }
    ensures refused { (highest : ℕ) → IfErr result (λ e. (e ≡ WorkerFault.OutOfMemory)
        ⊎ RefusesBytes highest held.old bytes.now e) }
{
    if let Some(values) = ValuesReader::open(bytes) {
        let Some(held) = held else {
            return Err(WorkerFault::Order);
        };
        take_read(held, values)?;
        return Ok(true);
    }
    let Some(lines) = VerticesReader::open(bytes) else {
        return Ok(false);
    };
    let Some(held) = held else {
        return Err(WorkerFault::Order);
    };
    add_read_lines(alloc, held, lines)?;
    Ok(true)
}
