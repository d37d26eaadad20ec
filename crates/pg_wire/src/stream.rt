//! Reads frames from a reader.
ghost use Rattle.std.specs.Prelude.{◌≡◌, ℕ, ◌+◌, ◌≤◌, ◌<◌, ◌++◌, ◌⊎◌, ◌≢◌, true, false, List, take, Ok, Err, Some, None, length, slice_index, ◌^◌, IfOk, OnOk, IfErr, IfSome, IfNone};
ghost use Rattle.std.specs.Io.KnownBytes.{Consumes, IsAtEnd};
ghost use Rattle.pg_wire.specs.Spelling.{spelling};
ghost use Rattle.pg_wire.specs.Bytes.{Spells, IsReadFrom, IsWhole, IsTooLong};
ghost use Rattle.pg_wire.specs.declared.fault.WireFault.TheVariants.{Truncated, TooLong, OutOfMemory};

use crate::fault::WireFault;
use crate::frame::Frame;
use crate::reading::{LONGEST, decode};
use byteorder::{BigEndian, ByteOrder};
use std::alloc::Global;
use std::io::{ErrorKind, Read};

/// The number of bytes to ask for at first.
const CHUNK: usize = 4096;

/// Reads once, and tries again as long as the read is interrupted. Returns the number of bytes read.
fn read_some<R: Read>(input: &mut R, buffer: &mut [u8]) -> Result<usize, WireFault>
    ensures bound { IfOk result (λ n. n ≤ length buffer.new) }
    ensures bytes { IfOk result (λ n. Consumes (R.remaining input.old) (R.remaining input.new) (take n buffer.new)) }
    ensures end { IfOk result (λ n. n ≡ 0 → 0 < length buffer.new → IsAtEnd (R.remaining input.new)) }
    ensures fault { IfErr result (λ e. e ≡ WireFault.Read) }
{
    for _ in 0..u64::MAX {
        match input.read(buffer) {
            Ok(count) => return Ok(count),
            Err(e) => {
                if e.kind() != ErrorKind::Interrupted {
                    return Err(WireFault::Read);
                }
            }
        }
    }
    Err(WireFault::Read)
}

/// Fills the buffer, or as much of it as the input has, and returns the number of bytes read.
fn fill<R: Read>(input: &mut R, buffer: &mut [u8]) -> Result<usize, WireFault>
    ensures bound { IfOk result (λ n. n ≤ length buffer.new) }
    ensures bytes { IfOk result (λ n. Consumes (R.remaining input.old) (R.remaining input.new) (take n buffer.new)) }
    ensures end { IfOk result (λ n. n < length buffer.new → IsAtEnd (R.remaining input.new)) }
    ensures fits { (i : ℕ) → slice_index buffer.new i < 2 ^ 8 }
    ensures fault { IfErr result (λ e. e ≡ WireFault.Read) }
{
    let mut filled = 0;
    while filled < buffer.len() {
        let more = read_some(input, &mut buffer[filled..])?;
        if more == 0 {
            return Ok(filled);
        }
        filled += more;
    }
    Ok(filled)
}

/// Appends `len` bytes of the input. It takes memory for them only as they come: each time for at most as many as `bytes`
/// already has, or for one chunk.
fn read_body<R: Read>(input: &mut R, len: usize, bytes: &mut Vec<u8>) -> Result<(), WireFault>
    ensures bytes { OnOk result ((body : List ℕ) × (bytes.new.items ≡ bytes.old.items ++ body) × (length body ≡ len)
        × Consumes (R.remaining input.old) (R.remaining input.new) body) }
    ensures short { result ≡ Err Truncated → IfSome (R.remaining input.old) (λ xs. length xs < len) }
    ensures fault { IfErr result (λ e. (e ≡ Truncated) ⊎ (e ≡ OutOfMemory) ⊎ (e ≡ WireFault.Read)) }
{
    let mut left = len;
    while left > 0 {
        let start = bytes.len();
        let size = left.min(start.max(CHUNK));
        if bytes.resize(start + size, 0).is_err() {
            return Err(WireFault::OutOfMemory);
        }
        let count = fill(input, &mut bytes[start..])?;
        if count < size {
            return Err(WireFault::Truncated);
        }
        left -= size;
    }
    Ok(())
}

/// Reads the bytes of the next frame, its length and as many bytes as the length says, in place of those in `bytes`, and
/// returns true. Returns false if the input ends before the first byte. It reads no byte past the frame, repeats a read
/// that was interrupted, and takes no more memory than twice what the bytes that came fill, or one chunk. It doesn't look
/// at the content of the frame: `decode` does.
///
/// Faults: `Read` if a read fails; `Truncated` if the input ends within a frame; `TooLong` as soon as the length is read;
/// `OutOfMemory` if memory runs out. After `TooLong`, `bytes` holds the length, and nothing more was read. After any other
/// fault the content of `bytes` is unspecified, and you must not use the reader again.
pub fn read_frame_bytes<R: Read>(input: &mut R, bytes: &mut Vec<u8>) -> Result<bool, WireFault>
    ensures end { result ≡ Ok false → IsAtEnd (R.remaining input.old) }
    ensures frame { result ≡ Ok true → IsWhole bytes.new.items
        × Consumes (R.remaining input.old) (R.remaining input.new) bytes.new.items }
    ensures fault { IfErr result (λ e. (e ≡ WireFault.Read) ⊎ (e ≡ OutOfMemory)
        ⊎ (((e ≡ TooLong) ⊎ (e ≡ Truncated)) × IfSome (R.remaining input.old) (λ xs. IsReadFrom xs (Err e)))) }
    ensures too_long { result ≡ Err TooLong → IsTooLong bytes.new.items × (length bytes.new.items ≡ 4) }
{
    bytes.clear();
    let mut front = [0u8; 4];
    let count = fill(input, &mut front)?;
    if count == 0 {
        return Ok(false);
    }
    if count < 4 {
        return Err(WireFault::Truncated);
    }
    if bytes.extend_from_slice(&front).is_err() {
        return Err(WireFault::OutOfMemory);
    }
    let len = BigEndian::read_u32(&front);
    if len > LONGEST {
        return Err(WireFault::TooLong);
    }
    read_body(input, len as usize, bytes)?;
    Ok(true)
}

/// Reads the next frame, or returns None if the input ends before its first byte. It reads no byte past the frame,
/// repeats a read that was interrupted, and takes no more memory than the bytes that came can fill.
///
/// Faults: `Read` if a read fails; `Truncated` if the input ends within a frame; `TooLong` as soon as the length is read;
/// the others as `decode` returns them for the bytes of the frame. After a fault you must not use the reader again.
pub fn read_frame<R: Read>(alloc: Global, input: &mut R) -> Result<Option<Frame>, WireFault>
    ensures end { IfOk result (λ o. IfNone o (IsAtEnd (R.remaining input.old))) }
    ensures frame { IfOk result (λ o. IfSome o (λ f. Spells f (spelling f) × Consumes (R.remaining input.old) (R.remaining input.new) (spelling f))) }
    ensures not_write { result ≢ Err WireFault.Write }
    ensures known { (result ≡ Err WireFault.Read) ⊎ (result ≡ Err OutOfMemory) ⊎ IfSome (R.remaining input.old) (λ bytes. IsReadFrom bytes result) }
{
    let mut bytes = Vec::new(alloc);
    if !read_frame_bytes(input, &mut bytes)? {
        return Ok(None);
    }
    match decode(alloc, &bytes) {
        Ok(frame) => Ok(Some(frame)),
        Err(fault) => Err(fault),
    }
}
