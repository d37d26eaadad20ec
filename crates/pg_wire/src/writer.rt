//! Writes frames of measures, one measure after another, into a buffer that the caller keeps.
ghost use Rattle.std.specs.Prelude.{◌≡◌, ℕ, ◌+◌, ◌-◌, ◌≤◌, ◌<◌, ◌++◌, ◌∷◌, [], List, Some, None, length, OnOk, OnErr, IfOk};
ghost use Rattle.std.specs.List.{flat_map};
ghost use Rattle.pg_wire.specs.Spelling.{word, pair, spelling, longest};
ghost use Rattle.pg_wire.specs.Well.{IsWell};
ghost use Rattle.pg_wire.specs.Bytes.{Spells};
ghost use Rattle.pg_wire.specs.Measured.{Measured, nonzero, spelled_as, kind_number, frame_of};
ghost use Rattle.pg_wire.specs.Mirrors.Buffers.{Extends};

use crate::kind::{ValueKind, is_told, nonzero_len};
use crate::reading::LONGEST;
use byteorder::{BigEndian, ByteOrder};
use std::alloc::AllocError;

/// The number of bytes before the measures of a frame: its length, its kind, the width and the count.
const FRONT: usize = 13;

/// A frame of measures that is being written at the end of a buffer. The bytes before its measures are written last.
#[derive(Drop)]
pub struct ValuesWriter {
    kind: ValueKind,
    width: u32,
    start: usize,
    count: u32,
}

fn put_word(n: u32, out: &mut Vec<u8>) -> Result<(), AllocError>
    ensures ok { OnOk result (out.new.items ≡ out.old.items ++ word n) }
    ensures err { OnErr result (out.new.items ≡ out.old.items) }
{
    let mut bytes = [0; 4];
    BigEndian::write_u32(&mut bytes, n);
    out.extend_from_slice(&bytes)
}

/// Appends each number. If memory runs out, some of them may be in the buffer.
#[tactic(auto, using(crate::proofs::Buffers::extends_by))]
pub fn put_numbers(numbers: &[u32], out: &mut Vec<u8>) -> Result<(), AllocError>
    ensures ok { OnOk result (out.new.items ≡ out.old.items ++ flat_map word numbers.now) }
    ensures kept { Extends out.old.items out.new.items }
{
    for n in numbers {
        put_word(*n, out)?;
    }
    Ok(())
}

fn put_pair(place: u32, n: u32, out: &mut Vec<u8>) -> Result<(), AllocError>
    ensures ok { OnOk result (out.new.items ≡ out.old.items ++ pair (place, n)) }
    ensures kept { Extends out.old.items out.new.items }
{
    let mut bytes = [0; 8];
    BigEndian::write_u32(&mut bytes, place);
    BigEndian::write_u32(&mut bytes[4..], n);
    out.extend_from_slice(&bytes)
}

/// Appends each number that isn't 0, with its place.
fn put_pairs(numbers: &[u32], out: &mut Vec<u8>) -> Result<(), AllocError>
    requires { length numbers.now ≤ 32768 }
    ensures ok { OnOk result (out.new.items ≡ out.old.items ++ flat_map pair (nonzero numbers.now)) }
    ensures kept { Extends out.old.items out.new.items }
{
    for (place, n) in numbers.iter().enumerate() {
        if is_told(*n) {
            put_pair(place as u32, *n, out)?;
        }
    }
    Ok(())
}

fn put_tagged(vertex: u32, tag: u8, out: &mut Vec<u8>) -> Result<(), AllocError>
    ensures ok { OnOk result (out.new.items ≡ out.old.items ++ (word vertex ++ tag ∷ [])) }
    ensures kept { Extends out.old.items out.new.items }
{
    let mut bytes = [tag; 5];
    BigEndian::write_u32(&mut bytes, vertex);
    out.extend_from_slice(&bytes)
}

#[inline(always)]
fn put_list(kind: ValueKind, vertex: u32, list: &[u32], out: &mut Vec<u8>) -> Result<(), AllocError>
    requires { length list.now ≤ 32768 }
    ensures ok { OnOk result (out.new.items ≡ out.old.items ++ spelled_as kind (vertex, Some list.now)) }
    ensures kept { Extends out.old.items out.new.items }
{
    put_tagged(vertex, 0, out)?;
    match kind {
        ValueKind::Dense => put_numbers(list, out),
        ValueKind::Sparse => {
            put_word(nonzero_len(list) as u32, out)?;
            put_pairs(list, out)
        }
    }
}

fn put_front(kind: ValueKind, width: u32, count: u32, len: u32, front: &mut [u8])
    requires { length front.old ≡ 13 }
    ensures { front.new ≡ word len ++ (kind_number kind ∷ (word width ++ word count)) }
{
    let kind = match kind {
        ValueKind::Dense => 3,
        ValueKind::Sparse => 7,
    };
    let mut bytes = [kind; FRONT];
    BigEndian::write_u32(&mut bytes, len);
    BigEndian::write_u32(&mut bytes[5..], width);
    BigEndian::write_u32(&mut bytes[9..], count);
    front.copy_from_slice(&bytes);
}

impl ValuesWriter {
    ghost use Rattle.pg_wire.specs.Written.{IsWriting, IsAdded};

    /// Begins a frame of this kind and width at the end of the buffer, and returns its writer. If memory runs out, the
    /// buffer stays as it was.
    pub fn begin(kind: ValueKind, width: u32, out: &mut Vec<u8>) -> Result<ValuesWriter, AllocError>
        ensures of { IfOk result (λ w. (w.kind ≡ kind) × (w.width ≡ width)) }
        ensures begun { IfOk result (λ w. IsWriting w out.old.items [] out.new.items) }
        ensures kept { OnErr result (out.new.items ≡ out.old.items) }
    {
        let start = out.len();
        out.extend_from_slice(&[0; FRONT])?;
        Ok(ValuesWriter {
            kind,
            width,
            start,
            count: 0,
        })
    }

    /// Returns the number of bytes that the frame can still take.
    fn room(&self, out: &[u8]) -> usize
        ensures { result ≡ longest + 4 - (length out.now - self.now.start) }
    {
        (4 + LONGEST as usize).saturating_sub(out.len().saturating_sub(self.start))
    }

    /// Appends a vertex whose measure is this list, which must have as many numbers as the width, at most 32,768. Returns
    /// false if the frame would get too long: more than 16,777,216 bytes after its length. If it returns false or memory
    /// runs out, the writer and the buffer stay as they were.
    #[inline(always)]
    pub fn push_list(
        &mut self,
        vertex: u32,
        list: &[u32],
        out: &mut Vec<u8>,
    ) -> Result<bool, AllocError>
        requires { length list.now ≤ 32768 }
        ensures of { (self.new.kind ≡ self.old.kind) × (self.new.width ≡ self.old.width) }
        ensures added { (before : List ℕ) (ms : List Measured) → IsWriting self.old before ms out.old.items → IfOk result (λ fits. IsAdded fits self.old self.new before ms (vertex, Some list.now) out.old.items out.new.items) }
        ensures kept { OnErr result ((self.new ≡ self.old) × (out.new.items ≡ out.old.items)) }
    {
        if self.room(out) < self.kind.list_size(list) {
            return Ok(false);
        }
        let len = out.len();
        match put_list(self.kind, vertex, list, out) {
            Ok(()) => {
                self.count = self.count.saturating_add(1);
                Ok(true)
            }
            Err(fault) => {
                out.truncate(len);
                Err(fault)
            }
        }
    }

    /// Appends a vertex whose measure is top. Returns false if the frame would get too long: more than 16,777,216 bytes
    /// after its length. If it returns false or memory runs out, the writer and the buffer stay as they were.
    pub fn push_top(&mut self, vertex: u32, out: &mut Vec<u8>) -> Result<bool, AllocError>
        ensures of { (self.new.kind ≡ self.old.kind) × (self.new.width ≡ self.old.width) }
        ensures added { (before : List ℕ) (ms : List Measured) → IsWriting self.old before ms out.old.items → IfOk result (λ fits. IsAdded fits self.old self.new before ms (vertex, None) out.old.items out.new.items) }
        ensures kept { OnErr result ((self.new ≡ self.old) × (out.new.items ≡ out.old.items)) }
    {
        if self.room(out) < self.kind.top_size() {
            return Ok(false);
        }
        let len = out.len();
        match put_tagged(vertex, 1, out) {
            Ok(()) => {
                self.count = self.count.saturating_add(1);
                Ok(true)
            }
            Err(fault) => {
                out.truncate(len);
                Err(fault)
            }
        }
    }

    /// Ends the frame: writes its length, its kind, the width and the count before the measures.
    pub fn finish(self, out: &mut Vec<u8>)
        ensures spelled { (before : List ℕ) (ms : List Measured) → IsWriting self before ms out.old.items → out.new.items ≡ before ++ spelling (frame_of self.kind self.width ms) }
        ensures spells { (before : List ℕ) (ms : List Measured) → IsWriting self before ms out.old.items → IsWell (frame_of self.kind self.width ms) → Spells (frame_of self.kind self.width ms) (spelling (frame_of self.kind self.width ms)) }
    {
        let len = out.len().saturating_sub(self.start).saturating_sub(4);
        let len = len.min(LONGEST as usize) as u32;
        if self.start <= out.len() && FRONT <= out.len() - self.start {
            let front = &mut out.as_mut_slice()[self.start..self.start + FRONT];
            put_front(self.kind, self.width, self.count, len, front);
        }
    }
}
