//! Writes frames of vertices, one line after another, into a buffer that the caller keeps.
ghost use Rattle.std.specs.Prelude.{◌≡◌, ℕ, ◌+◌, ◌-◌, ◌*◌, ◌^◌, ◌<◌, ◌++◌, ◌∷◌, [], List, length, OnOk, OnErr, IfOk};
ghost use Rattle.pg_wire.specs.declared.frame.VertexLine.{VertexLine};
ghost use Rattle.pg_wire.specs.Spelling.{word, line, spelling, longest};
ghost use Rattle.pg_wire.specs.Well.{IsWell};
ghost use Rattle.pg_wire.specs.Bytes.{Spells};
ghost use Rattle.pg_wire.specs.Lines.{line_with, frame_with};
ghost use Rattle.pg_wire.specs.Mirrors.Buffers.{Extends};

use crate::frame::LineHead;
use crate::reading::LONGEST;
use crate::writer::put_numbers;
use byteorder::{BigEndian, ByteOrder};
use std::alloc::AllocError;

/// The number of bytes before the lines of a frame: its length, its kind and the count.
const FRONT: usize = 9;

/// The number of bytes before the successors of a line: the vertex, the priority, the owner and the count.
const HEAD: usize = 13;

/// A frame of vertices that is being written at the end of a buffer. The bytes before its lines are written last.
#[derive(Drop)]
pub struct VerticesWriter {
    start: usize,
    count: u32,
}

fn put_front(count: u32, len: u32, front: &mut [u8])
    requires { length front.old ≡ 9 }
    ensures { front.new ≡ word len ++ (2 ∷ word count) }
{
    let mut bytes = [2; FRONT];
    BigEndian::write_u32(&mut bytes, len);
    BigEndian::write_u32(&mut bytes[5..], count);
    front.copy_from_slice(&bytes);
}

/// Appends the part of a line before its `count` successors.
fn put_head(head: LineHead, count: u32, out: &mut Vec<u8>) -> Result<(), AllocError>
    ensures ok { OnOk result (out.new.items
        ≡ out.old.items ++ (word head.vertex ++ word head.priority ++ (head.owner ∷ word count))) }
    ensures err { OnErr result (out.new.items ≡ out.old.items) }
{
    let mut bytes = [head.owner; HEAD];
    BigEndian::write_u32(&mut bytes, head.vertex);
    BigEndian::write_u32(&mut bytes[4..], head.priority);
    BigEndian::write_u32(&mut bytes[9..], count);
    out.extend_from_slice(&bytes)
}

/// Appends a line. If memory runs out, part of it may be in the buffer.
fn put_line(head: LineHead, successors: &[u32], out: &mut Vec<u8>) -> Result<(), AllocError>
    requires { length successors.now < 2 ^ 32 }
    ensures ok { OnOk result (out.new.items ≡ out.old.items ++ line (line_with head successors.now)) }
    ensures kept { Extends out.old.items out.new.items }
{
    put_head(head, successors.len() as u32, out)?;
    put_numbers(successors, out)
}

impl VerticesWriter {
    ghost use Rattle.pg_wire.specs.LinesWritten.{AreWriting, IsLineAdded};

    /// Begins a frame at the end of the buffer, and returns its writer. If memory runs out, the buffer stays as it was.
    pub fn begin(out: &mut Vec<u8>) -> Result<VerticesWriter, AllocError>
        ensures begun { IfOk result (λ w. AreWriting w out.old.items [] out.new.items) }
        ensures kept { OnErr result (out.new.items ≡ out.old.items) }
    {
        let start = out.len();
        out.extend_from_slice(&[0; FRONT])?;
        Ok(VerticesWriter { start, count: 0 })
    }

    /// Returns the number of bytes that the frame can still take.
    fn room(&self, out: &[u8]) -> usize
        ensures { result ≡ longest + 4 - (length out.now - self.now.start) }
    {
        (4 + LONGEST as usize).saturating_sub(out.len().saturating_sub(self.start))
    }

    /// Appends a line. Returns false if the frame would get too long: more than 16,777,216 bytes after its length. If it
    /// returns false or memory runs out, the writer and the buffer stay as they were.
    pub fn push(
        &mut self,
        head: LineHead,
        successors: &[u32],
        out: &mut Vec<u8>,
    ) -> Result<bool, AllocError>
        ensures added { (before : List ℕ) (ls : List VertexLine) → AreWriting self.old before ls out.old.items
            → IfOk result (λ fits. IsLineAdded fits self.old self.new before ls (line_with head successors.now)
            out.old.items out.new.items) }
        ensures kept { OnErr result ((self.new ≡ self.old) × (out.new.items ≡ out.old.items)) }
    {
        let size = HEAD + 4 * successors.len();
        if self.room(out) < size {
            return Ok(false);
        }
        let len = out.len();
        out.reserve(size)?;
        match put_line(head, successors, out) {
            Ok(()) => {
                self.count = self.count.saturating_add(1);
                Ok(true)
            }
            Err(fault) => {
                out.truncate(len);
                Err(fault)
            }
        }
    }

    /// Ends the frame: writes its length, its kind and the count before the lines.
    pub fn finish(self, out: &mut Vec<u8>)
        ensures spelled { (before : List ℕ) (ls : List VertexLine) → AreWriting self before ls out.old.items
            → out.new.items ≡ before ++ spelling (frame_with ls) }
        ensures spells { (before : List ℕ) (ls : List VertexLine) → AreWriting self before ls out.old.items
            → IsWell (frame_with ls) → Spells (frame_with ls) (spelling (frame_with ls)) }
    {
        let len = out.len().saturating_sub(self.start).saturating_sub(4);
        let len = len.min(LONGEST as usize) as u32;
        if self.start <= out.len() && FRONT <= out.len() - self.start {
            let front = &mut out.as_mut_slice()[self.start..self.start + FRONT];
            put_front(self.count, len, front);
        }
    }
}
