//! The bytes of frames that wait.

ghost use Rattle.std.specs.Prelude.{◌≡◌, ◌≤◌, ◌++◌, ℕ, List, length, OnOk, OnErr};
ghost use Rattle.pg_wire.specs.declared.frame.Frame.{Frame};
ghost use Rattle.pg_wire.specs.Spelling.{spelling};
ghost use Rattle.pg_wire.specs.Bytes.{Spells};
ghost use Rattle.pg_worker.specs.Serving.{report_bytes};
ghost use Rattle.pg_worker.specs.Above.{AreFrames};

use pg_wire::WireFault;
use pg_worker::WorkerFault;
use std::alloc::AllocError;

/// Appends the report of a fault, if it has one.
pub fn put_fault(fault: WorkerFault, out: &mut Vec<u8>) -> Result<(), AllocError>
    ensures ok { OnOk result (out.new.items ≡ out.old.items ++ report_bytes fault) }
    ensures err { OnErr result (out.new.items ≡ out.old.items) }
{
    match fault {
        WorkerFault::Wire(WireFault::Read | WireFault::Write | WireFault::Truncated) => Ok(()),
        _ => out.extend_from_slice(&[0, 0, 0, 3, 5, 2, fault.code()]),
    }
}

/// Returns the length of the frame that the bytes begin with.
pub fn first_len(bytes: &[u8]) -> usize
    requires frames { AreFrames (λ f. Unit {0}) bytes.now }
    requires some { 1 ≤ length bytes.now }
    ensures { (f : Frame) (rest : List ℕ) → Spells f (spelling f) → bytes.now ≡ spelling f ++ rest
        → result ≡ length (spelling f) }
{
    let (front, _) = bytes.split_at(4);
    4 + u32::from_be_bytes([front[0], front[1], front[2], front[3]]) as usize
}
