//! Reads a whole input, up to a limit.
ghost use Rattle.std.specs.Prelude.{◌≡◌, ◌+◌, ◌-◌, ◌≤◌, ◌<◌, ◌⊎◌, IfOk, OnOk, IfErr, IfSome, length, true, false};
ghost use Rattle.std.specs.Io.KnownBytes.{IsAtEnd};
ghost use Rattle.pg_cli_command.specs.Input.{StaysWithin, IsOver};
ghost use Rattle.pg_cli_command.specs.Mirrors.Reading.{Keeps};

use crate::fault::CliFault;
use std::alloc::{AllocError, Global};
use std::io::{ErrorKind, Read};

/// The greatest number of bytes in an input.
pub const MOST_BYTES: usize = 268_435_456;

/// The most bytes that one read asks for.
const CHUNK: usize = 65_536;

/// Returns room for `count` bytes.
fn room_for(alloc: Global, count: usize) -> Result<Vec<u8>, AllocError>
    ensures { IfOk result (λ room. length room.items ≡ count) }
{
    Vec::from_elem(alloc, 0u8, count)
}

/// Reads once into a buffer, and appends the bytes that came to the text. Returns whether more may come.
fn read_some<R: Read>(
    reader: &mut R,
    buffer: &mut [u8],
    text: &mut Vec<u8>,
) -> Result<bool, CliFault>
    requires room { 0 < length buffer.old }
    requires limit { length text.old.items ≤ MOST_BYTES }
    ensures within { OnOk result (length text.new.items ≤ MOST_BYTES) }
    ensures bytes { OnOk result
        (Keeps (R.remaining reader.old) text.old.items (R.remaining reader.new) text.new.items) }
    ensures end { result ≡ Ok false → IsAtEnd (R.remaining reader.new) }
    ensures no_further { StaysWithin (R.remaining reader.old) (R.remaining reader.new)
        (MOST_BYTES + 1 - length text.old.items) }
    ensures too_long { result ≡ Err CliFault.InputTooLong
        → IsOver (R.remaining reader.old) (MOST_BYTES - length text.old.items) }
    ensures causes { IfErr result (λ fault. (fault ≡ CliFault.OutOfMemory) ⊎ ((fault ≡ CliFault.Read)
        ⊎ (fault ≡ CliFault.InputTooLong))) }
{
    let room = (MOST_BYTES + 1 - text.len()).min(buffer.len());
    match reader.read(&mut buffer[..room]) {
        Ok(0) => Ok(false),
        Ok(n) => {
            if n > MOST_BYTES - text.len() {
                return Err(CliFault::InputTooLong);
            }
            text.extend_from_slice(&buffer[..n])?;
            Ok(true)
        }
        Err(e) if e.kind() == ErrorKind::Interrupted => Ok(true),
        Err(_) => Err(CliFault::Read),
    }
}

/// Reads an input to its end. It reads no further than the first byte over the limit. Fails with `Read` if a read
/// fails, `InputTooLong` if there are more than `MOST_BYTES` bytes, and `OutOfMemory`.
pub fn read_input<R: Read>(alloc: Global, reader: &mut R) -> Result<Vec<u8>, CliFault>
    ensures bytes { IfOk result (λ text. IfSome (R.remaining reader.old) (λ input. text.items ≡ input)) }
    ensures end { OnOk result (IsAtEnd (R.remaining reader.new)) }
    ensures limit { IfOk result (λ text. length text.items ≤ MOST_BYTES) }
    ensures no_further { StaysWithin (R.remaining reader.old) (R.remaining reader.new) (MOST_BYTES + 1) }
    ensures too_long { result ≡ Err CliFault.InputTooLong → IsOver (R.remaining reader.old) MOST_BYTES }
    ensures causes { IfErr result (λ fault. (fault ≡ CliFault.OutOfMemory) ⊎ ((fault ≡ CliFault.Read)
        ⊎ (fault ≡ CliFault.InputTooLong))) }
{
    let mut room = room_for(alloc, CHUNK)?;
    let buffer = room.as_mut_slice();
    let mut text = Vec::new(alloc);
    'reads: for _ in 0..u64::MAX {
        if !read_some(reader, buffer, &mut text)? {
            return Ok(text);
        }
    }
    Err(CliFault::Read)
}
