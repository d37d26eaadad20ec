//! A session between a reader and a writer.

ghost use Rattle.std.specs.Prelude.{◌≡◌, ◌≢◌, ℕ, ◌++◌, ◌⊎◌, List, None, IfOk, IfErr, OnOk};
ghost use Rattle.std.specs.Io.KnownBytes.{Appends};
ghost use Rattle.pg_wire.specs.declared.fault.WireFault.TheVariants.{Write};
ghost use Rattle.pg_worker.specs.declared.fault.WorkerFault.TheVariants.{Wire};
ghost use Rattle.pg_worker.specs.Faults.{code_of};
ghost use Rattle.pg_worker.specs.Turns.{report};
ghost use Rattle.pg_worker.specs.Serving.{Serves, Breaks, report_bytes, IsFaultAt};
ghost use Rattle.pg_worker.specs.Mirrors.Steps.{IsStep};

use crate::WorkerFault;
use crate::fault::own;
use crate::served::{Served, Step};
use crate::session::Session;
use pg_wire::{Frame, Report, WireFault, read_frame_bytes, write_frame};
use std::alloc::Global;
use std::io::{Read, Write};

/// Reads one frame into `bytes`, if there is one, makes the reply to it in `reply`, and writes it.
fn step<R: Read, W: Write>(
    session: &mut Session,
    bytes: &mut Vec<u8>,
    reply: &mut Vec<u8>,
    input: &mut R,
    output: &mut W,
) -> Result<Step, WorkerFault>
    requires { session.old.highest ≡ 2 }
    ensures step { IfOk result (λ s. IsStep s session.old.held session.new.held (R.remaining input.old)
        (R.remaining input.new) (W.contents output.old) (W.contents output.new)) }
    ensures highest { session.new.highest ≡ session.old.highest }
    ensures fault { IfErr result (λ e. (e ≡ Wire Write)
        ⊎ (IsFaultAt (R.remaining input.old) session.old.held e × (W.contents output.new ≡ W.contents output.old))) }
{
    match read_frame_bytes(input, bytes) {
        Ok(true) => {}
        Ok(false) => return Ok(Step::Ended),
        Err(fault) => return Err(own(fault)),
    }
    reply.clear();
    let halts = session.frame_from(bytes, reply)?;
    if output.write_all(reply).is_err() {
        return Err(WorkerFault::Wire(WireFault::Write));
    }
    if halts {
        return Ok(Step::Halted);
    }
    Ok(Step::Answered)
}

/// Writes the report of a fault, if it has one, and returns the fault that serving ends with.
fn tell<W: Write>(fault: WorkerFault, output: &mut W) -> WorkerFault
    ensures { ((result ≡ fault) × Appends (W.contents output.old) (W.contents output.new) (report_bytes fault))
        ⊎ (result ≡ Wire Write) }
{
    match fault {
        WorkerFault::Wire(WireFault::Read | WireFault::Write | WireFault::Truncated) => fault,
        _ => {
            let report = Frame::Report(Report {
                status: 2,
                code: fault.code(),
            });
            match write_frame(&report, output) {
                Ok(()) => fault,
                Err(_) => WorkerFault::Wire(WireFault::Write),
            }
        }
    }
}

/// Serves frames with a session that holds nothing. The vectors are for the bytes of a frame and for the reply to it.
fn serve_by<R: Read, W: Write>(
    session: &mut Session,
    bytes: &mut Vec<u8>,
    reply: &mut Vec<u8>,
    input: &mut R,
    output: &mut W,
) -> Result<Served, WorkerFault>
    requires highest { session.old.highest ≡ 2 }
    requires held { session.old.held ≡ None }
    ensures served { IfOk result (λ s. Serves s (R.remaining input.old) (R.remaining input.new)
        (W.contents output.old) (W.contents output.new)) }
    ensures fault { IfErr result (λ e. (e ≡ Wire Write)
        ⊎ Breaks e (R.remaining input.old) (W.contents output.old) (W.contents output.new)) }
{
    for frames in 0..u32::MAX {
        match step(session, bytes, reply, input, output) {
            Ok(Step::Ended) => return Ok(Served::InputEnded(frames)),
            Ok(Step::Halted) => return Ok(Served::Halted(frames + 1)),
            Ok(Step::Answered) => {}
            Err(fault) => return Err(tell(fault, output)),
        }
    }
    Ok(Served::Bound)
}

/// Serves frames: reads them one after another, and writes the replies of a session to `output`. It ends after Halt, when
/// the input ends before a frame, after 4,294,967,295 frames, or at a fault.
///
/// Faults: those of a session; `Wire` for a frame that can't be read; `Wire(Write)` if a write fails, which may leave
/// part of the output written. Before it ends with a fault other than `Wire(Read)` and `Wire(Truncated)`, it writes the
/// report of the fault, which takes no memory; if that write fails, the fault is `Wire(Write)`.
pub fn serve<R: Read, W: Write>(
    alloc: Global,
    input: &mut R,
    output: &mut W,
) -> Result<Served, WorkerFault>
    ensures served { IfOk result (λ s. Serves s (R.remaining input.old) (R.remaining input.new)
        (W.contents output.old) (W.contents output.new)) }
    ensures fault { IfErr result (λ e. (e ≡ Wire Write)
        ⊎ Breaks e (R.remaining input.old) (W.contents output.old) (W.contents output.new)) }
{
    let mut session = Session::new(alloc);
    let mut bytes = Vec::new(alloc);
    let mut reply = Vec::new(alloc);
    serve_by(&mut session, &mut bytes, &mut reply, input, output)
}
