//! Reads frames from bytes.
ghost use Rattle.std.specs.Prelude.{◌≡◌, ◌≢◌, ◌⊎◌, ◌∷◌, Ok, Err, IfOk, IfErr, IfSome, IfNone, ◌↔◌};
ghost use Rattle.pg_wire.specs.Mirrors.Reading.{Yields, Gives, skipped};
ghost use Rattle.pg_wire.specs.Mirrors.Formats.{setup_fields, report_fields, frame_at, body_at};
ghost use Rattle.pg_wire.specs.Mirrors.Lengths.{IsCounted};
ghost use Rattle.pg_wire.specs.Spelling.{body};
ghost use Rattle.pg_wire.specs.Well.{IsWell};
ghost use Rattle.pg_wire.specs.Bytes.{Spells, IsTooLong, IsTruncated};
ghost use Rattle.pg_wire.specs.declared.frame.Frame.{Frame};
ghost use Rattle.pg_wire.specs.declared.fault.WireFault.TheVariants.{TooLong, Truncated, OutOfMemory};

use crate::fault::{FieldFault, ReadFault, WireFault};
use crate::fields::{WORDS, byte, code, version, within};
use crate::form::{counted, skip_counted};
use crate::forms::{BoundForm, LineForm, SparseValueForm, ValueForm};
use crate::frame::{Frame, Go, Report, Setup, Sparse, Values, Vertices};
use crate::lines_reader::read_lines;
use crate::reader::{read_sparse_values, read_values};
use byteorder::{BigEndian, ByteOrder};
use std::alloc::Global;

/// The greatest length of a frame. The length counts the bytes after it.
pub const LONGEST: u32 = 16_777_216;

/// Returns the bytes after the length if the length counts all of them and is within the limit, and None otherwise.
pub fn after_length(bytes: &[u8]) -> Option<&[u8]>
    ensures found { IfSome result (λ rest. IsCounted bytes.now rest.now) }
    ensures none { IfNone result ((f : Frame) → Spells f bytes.now → ⊥) }
{
    if bytes.len() < 4 {
        return None;
    }
    let (front, rest) = bytes.split_at(4);
    let length = BigEndian::read_u32(front);
    if length > LONGEST || rest.len() != length as usize {
        return None;
    }
    Some(rest)
}

/// Returns the bytes after the fields of a frame of this kind. It takes no memory.
#[tactic(auto, using(crate::proofs::Skip::passed, crate::proofs::Skip::refused), unfolding(crate::specs::Mirrors::Formats::frame_at, crate::specs::Mirrors::Formats::setup_fields, crate::specs::Mirrors::Formats::vertices_fields, crate::specs::Mirrors::Formats::values_fields, crate::specs::Mirrors::Formats::sparse_fields, crate::specs::Mirrors::Formats::go_fields))]
#[inline(always)]
fn skip_fields(kind: u8, bytes: &[u8]) -> Result<&[u8], FieldFault>
    ensures { Yields (λ x. x.now) result (skipped (frame_at kind) bytes.now) }
{
    match kind {
        1 => {
            let (_, rest) = version(bytes)?;
            let (_, rest) = within(1, 1_048_577, rest)?;
            Ok(skip_counted::<BoundForm>(0, 0, WORDS, 65_536, rest)?)
        }
        2 => Ok(skip_counted::<LineForm>(0, 0, WORDS, 0, bytes)?),
        3 => {
            let (width, rest) = within(0, 32_769, bytes)?;
            Ok(skip_counted::<ValueForm>(width, 0, WORDS, 0, rest)?)
        }
        4 => {
            let (_, rest) = within(0, WORDS, bytes)?;
            Ok(rest)
        }
        5 => {
            let (_, rest) = report(bytes)?;
            Ok(rest)
        }
        6 => Ok(bytes),
        7 => {
            let (width, rest) = within(0, 32_769, bytes)?;
            Ok(skip_counted::<SparseValueForm>(width, 0, WORDS, 0, rest)?)
        }
        _ => Err(FieldFault::Kind),
    }
}

/// Finds the first fault in the bytes after a length, if they are the body of no frame. It takes no memory.
#[tactic(auto, using(crate::proofs::Skip::passed, crate::proofs::Skip::refused), unfolding(crate::specs::Mirrors::Formats::body_at))]
#[inline(always)]
fn check_body(bytes: &[u8]) -> Result<(), FieldFault>
    ensures body { IfOk result (λ _. (f : Frame) × (body_at bytes.now ≡ Ok f)) }
    ensures fault { IfErr result (λ e. body_at bytes.now ≡ Err e) }
{
    match bytes {
        [] => Err(FieldFault::Kind),
        [kind, rest @ ..] => {
            let rest = skip_fields(*kind, rest)?;
            if rest.is_empty() {
                Ok(())
            } else {
                Err(FieldFault::At(rest.len()))
            }
        }
    }
}

/// Returns the bytes after the length, where all of the bytes spell a frame. It takes no memory.
pub fn body_of(bytes: &[u8]) -> Option<&[u8]>
    ensures found { IfSome result (λ rest. (f : Frame) × Spells f bytes.now × (rest.now ≡ body f)) }
    ensures none { IfNone result ((f : Frame) → Spells f bytes.now → ⊥) }
{
    let rest = after_length(bytes)?;
    match check_body(rest) {
        Ok(()) => Some(rest),
        Err(_) => None,
    }
}

/// Reads the fields of a set-up.
#[tactic(auto, unfolding(crate::specs::Mirrors::Formats::setup_fields))]
fn setup(alloc: Global, bytes: &[u8]) -> Result<(Setup, &[u8]), ReadFault>
    ensures { Gives (λ x. (x.0, x.1.now)) result (setup_fields.read bytes.now) }
{
    let (version, rest) = version(bytes)?;
    let (vertices, rest) = within(1, 1_048_577, rest)?;
    let (bounds, rest) = counted::<BoundForm>(alloc, 0, 0, WORDS, 65_536, rest)?;
    let setup = Setup {
        version,
        vertices,
        bounds,
    };
    Ok((setup, rest))
}

/// Reads the fields of a report.
#[tactic(auto, unfolding(crate::specs::Mirrors::Formats::report_fields))]
fn report(bytes: &[u8]) -> Result<(Report, &[u8]), FieldFault>
    ensures { Yields (λ x. (x.0, x.1.now)) result (report_fields.read bytes.now) }
{
    let (status, rest) = byte(3, bytes)?;
    let (code, rest) = code(status, rest)?;
    Ok((Report { status, code }, rest))
}

/// Reads the frame of this kind whose fields are these bytes, which have been checked.
fn frame(alloc: Global, kind: u8, bytes: &[u8]) -> Result<Frame, ReadFault>
    ensures { (f : Frame) → IsWell f → (kind ∷ bytes.now) ≡ body f → Gives (λ x. x) result (Ok f) }
{
    match kind {
        1 => {
            let (setup, _) = setup(alloc, bytes)?;
            Ok(Frame::Setup(setup))
        }
        2 => {
            let (count, rest) = within(0, WORDS, bytes)?;
            let lines = read_lines(alloc, count, rest)?;
            Ok(Frame::Vertices(Vertices { lines }))
        }
        3 => {
            let (width, rest) = within(0, WORDS, bytes)?;
            let (count, rest) = within(0, WORDS, rest)?;
            let values = read_values(alloc, width, count, rest)?;
            Ok(Frame::Values(Values { width, values }))
        }
        4 => {
            let (budget, _) = within(0, WORDS, bytes)?;
            Ok(Frame::Go(Go { budget }))
        }
        5 => {
            let (report, _) = report(bytes)?;
            Ok(Frame::Report(report))
        }
        6 => Ok(Frame::Halt),
        7 => {
            let (width, rest) = within(0, WORDS, bytes)?;
            let (count, rest) = within(0, WORDS, rest)?;
            let values = read_sparse_values(alloc, width, count, rest)?;
            Ok(Frame::Sparse(Sparse { width, values }))
        }
        _ => Err(ReadFault::Field(FieldFault::Kind)),
    }
}

/// Reads the frame that all of the bytes after a length give. It takes memory only after it has checked them.
#[tactic(auto, unfolding(crate::specs::Mirrors::Formats::body_at))]
fn frame_of_body(alloc: Global, bytes: &[u8]) -> Result<Frame, ReadFault>
    ensures { Gives (λ x. x) result (body_at bytes.now) }
{
    check_body(bytes)?;
    match bytes {
        [] => Err(ReadFault::Field(FieldFault::Kind)),
        [kind, rest @ ..] => frame(alloc, *kind, rest),
    }
}

/// Reads the frame whose body is these bytes, the ones after its length.
fn from_body(alloc: Global, bytes: &[u8]) -> Result<Frame, WireFault>
    ensures found { IfOk result (λ f. (bytes.now ≡ body f) × IsWell f) }
    ensures all { (f : Frame) → IsWell f → bytes.now ≡ body f → (result ≡ Ok f) ⊎ (result ≡ Err OutOfMemory) }
    ensures not_long { result ≢ Err TooLong }
    ensures not_short { result ≢ Err Truncated }
    ensures no_stream { IfErr result (λ e. (e ≢ WireFault.Read) × (e ≢ WireFault.Write)) }
{
    match frame_of_body(alloc, bytes) {
        Ok(f) => Ok(f),
        Err(ReadFault::Memory) => Err(WireFault::OutOfMemory),
        Err(ReadFault::Field(FieldFault::At(left))) => {
            Err(WireFault::BadField(4 + bytes.len().saturating_sub(left)))
        }
        Err(ReadFault::Field(FieldFault::Version)) => Err(WireFault::Version),
        Err(ReadFault::Field(FieldFault::Kind)) => Err(WireFault::BadKind),
    }
}

/// Reads the frame that the bytes, all of them, spell. It takes no more memory than the bytes can fill, even if they are
/// wrong.
///
/// It returns the first of these faults: `Truncated` for fewer than four bytes; `TooLong` for a length of more than
/// 16,777,216; `BadKind` for a length of 0; `Truncated` for fewer bytes than the length says; `BadField` at the first byte
/// past what the length says; `BadKind` for an unknown kind; then, field by field, `Version` for the version of a set-up,
/// and `BadField` for any other field that is out of its range or order or runs past the end; `BadField` at the first byte
/// after the last field. Offsets count from the first byte of the length. `OutOfMemory` can come at any point.
pub fn decode(alloc: Global, bytes: &[u8]) -> Result<Frame, WireFault>
    ensures found { IfOk result (λ f. Spells f bytes.now) }
    ensures all { (f : Frame) → Spells f bytes.now → (result ≡ Ok f) ⊎ (result ≡ Err OutOfMemory) }
    ensures too_long { result ≡ Err TooLong ↔ IsTooLong bytes.now }
    ensures truncated { result ≡ Err Truncated ↔ IsTruncated bytes.now }
    ensures no_stream { IfErr result (λ e. (e ≢ WireFault.Read) × (e ≢ WireFault.Write)) }
{
    if bytes.len() < 4 {
        return Err(WireFault::Truncated);
    }
    let (front, rest) = bytes.split_at(4);
    let length = BigEndian::read_u32(front);
    if length > LONGEST {
        return Err(WireFault::TooLong);
    }
    let length = length as usize;
    if length == 0 {
        return Err(WireFault::BadKind);
    }
    if rest.len() < length {
        return Err(WireFault::Truncated);
    }
    if rest.len() > length {
        return Err(WireFault::BadField(4 + length));
    }
    from_body(alloc, rest)
}
