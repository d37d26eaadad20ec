//! Answers that are written to memory.

ghost use Rattle.std.specs.Prelude.{◌≡◌};
ghost use Rattle.pg_cli_command.specs.InMemory.{in_memory};

use crate::fault::CliFault;

/// Returns the output that was written to memory, or the fault. A write to memory fails only if memory runs out, so `Write` becomes
/// `OutOfMemory`. Every other fault stays as it is.
pub fn in_memory(written: Result<(), CliFault>, output: Vec<u8>) -> Result<Vec<u8>, CliFault>
    ensures { result ≡ in_memory written output }
{
    match written {
        Ok(()) => Ok(output),
        Err(CliFault::Write) => Err(CliFault::OutOfMemory),
        Err(fault) => Err(fault),
    }
}
