//! Reads the fields that are numbers.
ghost use Rattle.std.specs.Prelude.{◌≡◌, ◌+◌, ◌≤◌, ◌<◌, ◌^◌, length, IfOk, OnErr};
ghost use Rattle.pg_wire.specs.Mirrors.Reading.{Yields, within_at, odd_at, byte_at, version_at, code_at};
ghost use Rattle.pg_wire.specs.Mirrors.Formats.{bound, place};

use crate::fault::FieldFault;
use byteorder::{BigEndian, ByteOrder};

/// One more than the greatest four-byte number.
pub const WORDS: u64 = 4_294_967_296;

/// Reads a four-byte number from `low` on and below `high`.
#[tactic(auto, unfolding(crate::specs::Mirrors::Reading::within_at))]
#[inline(always)]
pub fn within(low: u64, high: u64, bytes: &[u8]) -> Result<(u32, &[u8]), FieldFault>
    ensures read { Yields (λ x. (x.0, x.1.now)) result (within_at low high bytes.now) }
    ensures size { IfOk result (λ x. 4 + length x.1.now ≡ length bytes.now) }
    ensures range { IfOk result (λ x. (low ≤ x.0) × (x.0 < high)) }
    ensures cut { low ≡ 0 → high ≡ 2 ^ 32 → OnErr result (length bytes.now < 4) }
{
    if bytes.len() < 4 {
        return Err(FieldFault::At(bytes.len()));
    }
    let (front, rest) = bytes.split_at(4);
    let n = BigEndian::read_u32(front);
    if low <= n as u64 && (n as u64) < high {
        Ok((n, rest))
    } else {
        Err(FieldFault::At(bytes.len()))
    }
}

/// Reads an odd four-byte number below `high`.
#[tactic(auto, unfolding(crate::specs::Mirrors::Reading::odd_at))]
pub fn odd(high: u64, bytes: &[u8]) -> Result<(u32, &[u8]), FieldFault>
    ensures read { Yields (λ x. (x.0, x.1.now)) result (odd_at high bytes.now) }
    ensures size { IfOk result (λ x. 4 + length x.1.now ≡ length bytes.now) }
{
    let (n, rest) = within(1, high, bytes)?;
    if n % 2 == 1 {
        Ok((n, rest))
    } else {
        Err(FieldFault::At(bytes.len()))
    }
}

/// Reads an odd priority below `high`, and its bound, which isn't 0.
#[tactic(auto, unfolding(crate::specs::Mirrors::Formats::bound))]
pub fn bound(high: u64, bytes: &[u8]) -> Result<((u32, u32), &[u8]), FieldFault>
    ensures read { Yields (λ x. (x.0, x.1.now)) result ((bound high).read bytes.now) }
    ensures size { IfOk result (λ x. 8 + length x.1.now ≡ length bytes.now) }
{
    let (priority, rest) = odd(high, bytes)?;
    let (n, rest) = within(1, WORDS, rest)?;
    Ok(((priority, n), rest))
}

/// Reads a place from `at` on and below the width, and the number there, which isn't 0.
#[tactic(auto, unfolding(crate::specs::Mirrors::Formats::place))]
#[inline(always)]
pub fn pair(width: u32, at: u64, bytes: &[u8]) -> Result<((u32, u32), &[u8]), FieldFault>
    ensures read { Yields (λ x. (x.0, x.1.now)) result ((place width at).read bytes.now) }
    ensures size { IfOk result (λ x. 8 + length x.1.now ≡ length bytes.now) }
    ensures range { IfOk result (λ x. (at ≤ x.0.0) × (x.0.0 < width)) }
{
    let (place, rest) = within(at, width as u64, bytes)?;
    let (n, rest) = within(1, WORDS, rest)?;
    Ok(((place, n), rest))
}

/// Reads a byte below `high`.
#[tactic(auto, unfolding(crate::specs::Mirrors::Reading::byte_at))]
#[inline(always)]
pub fn byte(high: u8, bytes: &[u8]) -> Result<(u8, &[u8]), FieldFault>
    ensures read { Yields (λ x. (x.0, x.1.now)) result (byte_at high bytes.now) }
    ensures size { IfOk result (λ x. 1 + length x.1.now ≡ length bytes.now) }
{
    match bytes {
        [] => Err(FieldFault::At(0)),
        [b, rest @ ..] => {
            if *b < high {
                Ok((*b, rest))
            } else {
                Err(FieldFault::At(bytes.len()))
            }
        }
    }
}

/// Reads the version of a set-up, 1 or 2.
#[tactic(auto, unfolding(crate::specs::Mirrors::Reading::version_at))]
pub fn version(bytes: &[u8]) -> Result<(u8, &[u8]), FieldFault>
    ensures { Yields (λ x. (x.0, x.1.now)) result (version_at bytes.now) }
{
    match bytes {
        [] => Err(FieldFault::At(0)),
        [b, rest @ ..] => {
            if 1 <= *b && *b < 3 {
                Ok((*b, rest))
            } else {
                Err(FieldFault::Version)
            }
        }
    }
}

/// Reads the code of a report with this status.
#[tactic(auto, unfolding(crate::specs::Mirrors::Reading::code_at))]
pub fn code(status: u8, bytes: &[u8]) -> Result<(u8, &[u8]), FieldFault>
    ensures { Yields (λ x. (x.0, x.1.now)) result (code_at status bytes.now) }
{
    let (code, rest) = byte(19, bytes)?;
    let fits = if status < 2 {
        code == 0
    } else {
        1 <= code && code < 5 || 11 <= code && code < 19
    };
    if fits {
        Ok((code, rest))
    } else {
        Err(FieldFault::At(bytes.len()))
    }
}
