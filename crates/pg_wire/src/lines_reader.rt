//! Reads the lines of a frame of vertices one after another, from its bytes.
ghost use Rattle.std.specs.Prelude.{◌≡◌, ◌≢◌, ◌<◌, List, None, IfSome, IfOk, IfNone, OnErr, length};
ghost use Rattle.pg_wire.specs.declared.frame.VertexLine.{VertexLine};
ghost use Rattle.pg_wire.specs.Bytes.{Spells};
ghost use Rattle.pg_wire.specs.Lines.{frame_with};
ghost use Rattle.pg_wire.specs.LinesLeft.{AreLeft};

use crate::fields::{WORDS, within};
use crate::forms::head;
use crate::frame::{LineHead, VertexLine};
use crate::list::Items;
use crate::reader::read_numbers;
use crate::reading::body_of;
use std::alloc::{AllocError, Global};

/// Reads the lines that are left of a frame of vertices.
#[derive(Clone, Copy)]
pub struct VerticesReader<'a> {
    bytes: &'a [u8],
}

impl<'a> VerticesReader<'a> {
    ghost use Rattle.pg_wire.specs.LinesLeft.{AreLeft, IsNextLine};

    /// Returns a reader of the lines in a frame of vertices, or None if the bytes, all of them, don't spell such a frame.
    /// It takes no memory.
    pub fn open(bytes: &'a [u8]) -> Option<VerticesReader<'a>>
        ensures found { IfSome result (λ r. (ls : List VertexLine) × Spells (frame_with ls) bytes.now × AreLeft r ls) }
        ensures all { (ls : List VertexLine) → Spells (frame_with ls) bytes.now → result ≢ None }
    {
        match body_of(bytes)? {
            [] => None,
            [kind, rest @ ..] => {
                if *kind != 2 {
                    return None;
                }
                let Ok((_, bytes)) = within(0, WORDS, rest) else {
                    return None;
                };
                Some(VerticesReader { bytes })
            }
        }
    }

    /// Reads the next line and returns its head. Its successors replace the contents of the vector. Returns None if no line
    /// is left. It fails only if memory runs out, and takes memory only if the vector has too little room. If it returns
    /// None or fails, the reader and the vector stay as they were.
    pub fn next(&mut self, successors: &mut Vec<u32>) -> Result<Option<LineHead>, AllocError>
        ensures less { IfOk result (λ o. IfSome o (λ x. length self.new.bytes.now < length self.old.bytes.now)) }
        ensures next { (ls : List VertexLine) → AreLeft self.old ls
            → IfOk result (λ o. IsNextLine ls self.new successors.new.items o) }
        ensures ended { IfOk result (λ o. IfNone o ((self.new ≡ self.old)
            × (successors.new.items ≡ successors.old.items))) }
        ensures kept { OnErr result ((self.new ≡ self.old) × (successors.new.items ≡ successors.old.items)) }
    {
        let Ok((head, count, rest)) = head(0, self.bytes) else {
            return Ok(None);
        };
        let count = count as usize;
        if rest.len() / 4 < count {
            return Ok(None);
        }
        successors.resize(count, 0)?;
        let Ok(rest) = read_numbers(rest, successors.as_mut_slice()) else {
            return Ok(None);
        };
        self.bytes = rest;
        Ok(Some(head))
    }
}

/// Collects all lines that a reader finds in the bytes. `count` is their number.
pub fn read_lines(alloc: Global, count: u32, bytes: &[u8]) -> Result<Items<VertexLine>, AllocError>
    ensures { (ls : List VertexLine) → AreLeft (record { bytes = bytes.entry }) ls → IfOk result (λ x. x ≡ ls) }
{
    let mut reader = VerticesReader { bytes };
    let mut lines = Vec::with_capacity(alloc, count as usize)?;
    let mut successors = Vec::new(alloc);
    'each: while let Some(head) = reader.next(&mut successors)? {
        lines.push(VertexLine {
            vertex: head.vertex,
            priority: head.priority,
            owner: head.owner,
            successors: Items::new(successors),
        })?;
        successors = Vec::new(alloc);
    }
    Ok(Items::new(lines))
}
