//! Writes frames.
ghost use Rattle.std.specs.Prelude.{◌≡◌, ℕ, ◌<◌, ◌≤◌, ◌^◌, ◌++◌, [], ◌∷◌, List, length, OnOk, IfOk, IfErr, IfSome, IfNone, ◌+◌, ◌⊎◌, ◌↔◌, Err};
ghost use Rattle.std.specs.List.{flat_map};
ghost use Rattle.std.specs.Io.KnownBytes.{Appends};
ghost use Rattle.pg_wire.specs.Spelling.{word, counted, spelling, body, longest};
ghost use Rattle.pg_wire.specs.Well.{IsWell};
ghost use Rattle.pg_wire.specs.Mirrors.Reading.{HasBytes};
ghost use Rattle.pg_wire.specs.declared.fault.WireFault.TheVariants.{TooLong, OutOfMemory};

use crate::fault::WireFault;
use crate::frame::{Frame, SparseValue, Value, VertexLine};
use crate::reading::LONGEST;
use byteorder::{BigEndian, ByteOrder, WriteBytesExt};
use std::alloc::Global;
use std::io::Write;

/// A value that has a spelling.
pub trait Spell {
    ghost spelled: { Self → List ℕ };

    ghost nonempty: { (x : Self) → HasBytes (spelled x) };

    /// Returns what is left of `room` bytes after the spelling, or None if the spelling is longer.
    fn room_after(&self, room: u32) -> Option<u32>
        ensures fits { IfSome result (λ left. left + length (spelled self.now) ≡ room) }
        ensures long { IfNone result (room < length (spelled self.now)) };

    fn put<W: Write>(&self, out: &mut W) -> Result<(), WireFault>
        requires { length (spelled self.now) < 2 ^ 32 }
        ensures ok { OnOk result (Appends (W.contents out.old) (W.contents out.new) (spelled self.now)) }
        ensures fault { IfErr result (λ e. e ≡ WireFault.Write) };
}

fn put_bytes<W: Write>(bytes: &[u8], out: &mut W) -> Result<(), WireFault>
    ensures ok { OnOk result (Appends (W.contents out.old) (W.contents out.new) bytes.now) }
    ensures fault { IfErr result (λ e. e ≡ WireFault.Write) }
{
    match out.write_all(bytes) {
        Ok(()) => Ok(()),
        Err(_) => Err(WireFault::Write),
    }
}

fn put_word<W: Write>(n: u32, out: &mut W) -> Result<(), WireFault>
    ensures ok { OnOk result (Appends (W.contents out.old) (W.contents out.new) (word n)) }
    ensures fault { IfErr result (λ e. e ≡ WireFault.Write) }
{
    match out.write_u32::<BigEndian>(n) {
        Ok(()) => Ok(()),
        Err(_) => Err(WireFault::Write),
    }
}

/// Writes each item, one after another.
#[tactic(auto, using(crate::proofs::Append::one_more, crate::proofs::Append::nothing))]
fn put_all<T: Spell, W: Write>(items: &[T], out: &mut W) -> Result<(), WireFault>
    requires { length (flat_map T.spelled items.now) < 2 ^ 32 }
    ensures ok { OnOk result (Appends (W.contents out.old) (W.contents out.new) (flat_map T.spelled items.now)) }
    ensures fault { IfErr result (λ e. e ≡ WireFault.Write) }
{
    for item in items {
        item.put(out)?;
    }
    Ok(())
}

/// Writes the number of items, and then each item.
#[tactic(auto, using(crate::proofs::Append::then, crate::proofs::Append::few))]
fn put_counted<T: Spell, W: Write>(items: &[T], out: &mut W) -> Result<(), WireFault>
    requires { length (flat_map T.spelled items.now) < 2 ^ 32 }
    ensures ok { OnOk result (Appends (W.contents out.old) (W.contents out.new) (counted T.spelled items.now)) }
    ensures fault { IfErr result (λ e. e ≡ WireFault.Write) }
{
    put_word(items.len() as u32, out)?;
    put_all(items, out)
}

/// Writes the bytes of `front`, then the number of items, and then each item.
#[tactic(auto, using(crate::proofs::Append::then))]
fn put_front_and_counted<T: Spell, W: Write>(
    front: &[u8],
    items: &[T],
    out: &mut W,
) -> Result<(), WireFault>
    requires { length (flat_map T.spelled items.now) < 2 ^ 32 }
    ensures ok { OnOk result (Appends (W.contents out.old) (W.contents out.new) (front.now ++ counted T.spelled items.now)) }
    ensures fault { IfErr result (λ e. e ≡ WireFault.Write) }
{
    put_bytes(front, out)?;
    put_counted(items, out)
}

#[tactic(auto, using(crate::proofs::Append::one_fits, crate::proofs::Append::none_fits))]
fn room_after_all<T: Spell>(items: &[T], room: u32) -> Option<u32>
    ensures fits { IfSome result (λ left. left + length (flat_map T.spelled items.now) ≡ room) }
    ensures long { IfNone result (room < length (flat_map T.spelled items.now)) }
{
    let mut left = room;
    for item in items {
        left = item.room_after(left)?;
    }
    Some(left)
}

impl Spell for u32 {
    ghost use Rattle.pg_wire.specs.Spelling.{word};

    ghost spelled = { word };

    ghost nonempty = { λ _. tt };

    fn room_after(&self, room: u32) -> Option<u32> {
        room.checked_sub(4)
    }

    fn put<W: Write>(&self, out: &mut W) -> Result<(), WireFault> {
        put_word(*self, out)
    }
}

impl Spell for (u32, u32) {
    ghost use Rattle.pg_wire.specs.Spelling.{pair};

    ghost spelled = { pair };

    ghost nonempty = { λ _. tt };

    fn room_after(&self, room: u32) -> Option<u32> {
        room.checked_sub(8)
    }

    #[tactic(auto, using(crate::proofs::Append::then))]
    fn put<W: Write>(&self, out: &mut W) -> Result<(), WireFault> {
        put_word(self.0, out)?;
        put_word(self.1, out)
    }
}

/// Returns the part of a line before the number of its successors.
fn line_front(vertex: u32, priority: u32, owner: u8) -> [u8; 9]
    ensures { result ≡ word vertex ++ word priority ++ owner ∷ [] }
{
    let mut front = [owner; 9];
    BigEndian::write_u32(&mut front, vertex);
    BigEndian::write_u32(&mut front[4..], priority);
    front
}

impl Spell for VertexLine {
    ghost use Rattle.pg_wire.specs.Spelling.{line};

    ghost spelled = { line };

    ghost nonempty = { λ _. tt };

    fn room_after(&self, room: u32) -> Option<u32> {
        room_after_all(self.successors.as_slice(), room.checked_sub(13)?)
    }

    fn put<W: Write>(&self, out: &mut W) -> Result<(), WireFault> {
        let front = line_front(self.vertex, self.priority, self.owner);
        put_front_and_counted(&front, self.successors.as_slice(), out)
    }
}

impl Spell for Value {
    ghost use Rattle.pg_wire.specs.Spelling.{value};

    ghost spelled = { value };

    ghost nonempty = { λ _. tt };

    fn room_after(&self, room: u32) -> Option<u32> {
        let room = room.checked_sub(5)?;
        match &self.list {
            None => Some(room),
            Some(list) => room_after_all(list.as_slice(), room),
        }
    }

    #[tactic(auto, using(crate::proofs::Append::then))]
    fn put<W: Write>(&self, out: &mut W) -> Result<(), WireFault> {
        put_word(self.vertex, out)?;
        match &self.list {
            None => put_bytes(&[1], out),
            Some(list) => {
                put_bytes(&[0], out)?;
                put_all(list.as_slice(), out)
            }
        }
    }
}

impl Spell for SparseValue {
    ghost use Rattle.pg_wire.specs.Spelling.{sparse_value};

    ghost spelled = { sparse_value };

    ghost nonempty = { λ _. tt };

    fn room_after(&self, room: u32) -> Option<u32> {
        let room = room.checked_sub(5)?;
        match &self.pairs {
            None => Some(room),
            Some(pairs) => room_after_all(pairs.as_slice(), room.checked_sub(4)?),
        }
    }

    #[tactic(auto, using(crate::proofs::Append::then))]
    fn put<W: Write>(&self, out: &mut W) -> Result<(), WireFault> {
        put_word(self.vertex, out)?;
        match &self.pairs {
            None => put_bytes(&[1], out),
            Some(pairs) => {
                put_bytes(&[0], out)?;
                put_counted(pairs.as_slice(), out)
            }
        }
    }
}

/// Returns the number of bytes in the body of a frame, or None if it is more than 16,777,216.
fn body_len(frame: &Frame) -> Option<u32>
    ensures fits { IfSome result (λ n. (n ≡ length (body frame.now)) × (n ≤ longest)) }
    ensures long { IfNone result (longest < length (body frame.now)) }
{
    let room = LONGEST;
    let left = match frame {
        Frame::Setup(s) => room_after_all(s.bounds.as_slice(), room - 10),
        Frame::Vertices(v) => room_after_all(v.lines.as_slice(), room - 5),
        Frame::Values(v) => room_after_all(v.values.as_slice(), room - 9),
        Frame::Go(_) => Some(room - 5),
        Frame::Report(_) => Some(room - 3),
        Frame::Halt => Some(room - 1),
        Frame::Sparse(s) => room_after_all(s.values.as_slice(), room - 9),
    };
    Some(room - left?)
}

/// Returns the kind of a frame, and then a number.
fn kind_and_word(kind: u8, n: u32) -> [u8; 5]
    ensures { result ≡ kind ∷ word n }
{
    let mut front = [kind; 5];
    BigEndian::write_u32(&mut front[1..], n);
    front
}

/// Returns the part of a set-up's body before the number of its bounds.
fn setup_front(version: u8, vertices: u32) -> [u8; 6]
    ensures { result ≡ 1 ∷ version ∷ word vertices }
{
    let mut front = [1, version, 0, 0, 0, 0];
    BigEndian::write_u32(&mut front[2..], vertices);
    front
}

/// Writes the body of a frame: everything after its length.
fn put_body<W: Write>(frame: &Frame, out: &mut W) -> Result<(), WireFault>
    requires { length (body frame.now) ≤ longest }
    ensures ok { OnOk result (Appends (W.contents out.old) (W.contents out.new) (body frame.now)) }
    ensures fault { IfErr result (λ e. e ≡ WireFault.Write) }
{
    match frame {
        Frame::Setup(s) => {
            put_front_and_counted(
                &setup_front(s.version, s.vertices),
                s.bounds.as_slice(),
                out,
            )
        }
        Frame::Vertices(v) => put_front_and_counted(&[2], v.lines.as_slice(), out),
        Frame::Values(v) => {
            put_front_and_counted(&kind_and_word(3, v.width), v.values.as_slice(), out)
        }
        Frame::Go(g) => put_bytes(&kind_and_word(4, g.budget), out),
        Frame::Report(r) => put_bytes(&[5, r.status, r.code], out),
        Frame::Halt => put_bytes(&[6], out),
        Frame::Sparse(s) => {
            put_front_and_counted(&kind_and_word(7, s.width), s.values.as_slice(), out)
        }
    }
}

#[tactic(auto, using(crate::proofs::Append::then))]
fn put_frame<W: Write>(frame: &Frame, len: u32, out: &mut W) -> Result<(), WireFault>
    requires len { len ≡ length (body frame.now) }
    requires fits { len ≤ longest }
    ensures ok { OnOk result (Appends (W.contents out.old) (W.contents out.new) (spelling frame.now)) }
    ensures fault { IfErr result (λ e. e ≡ WireFault.Write) }
{
    put_word(len, out)?;
    put_body(frame, out)
}

/// Writes the spelling of a frame. It takes no memory, and writes a few bytes at a time, so put a `BufWriter` around a
/// writer whose calls are expensive.
///
/// It fails with `TooLong`, and writes nothing, if and only if more than 16,777,216 bytes would follow the length.
/// Otherwise it fails with `Write` if the writer fails, and then you must not use the writer again.
pub fn write_frame<W: Write>(frame: &Frame, out: &mut W) -> Result<(), WireFault>
    requires { IsWell frame.now }
    ensures spelled { OnOk result (Appends (W.contents out.old) (W.contents out.new) (spelling frame.now)) }
    ensures faults { IfErr result (λ e. (e ≡ TooLong) ⊎ (e ≡ WireFault.Write)) }
    ensures too_long { result ≡ Err TooLong ↔ longest < length (body frame.now) }
    ensures kept { result ≡ Err TooLong → out.new ≡ out.old }
{
    let Some(len) = body_len(frame) else {
        return Err(WireFault::TooLong);
    };
    put_frame(frame, len, out)
}

/// Returns the spelling of a frame, in a vector of exactly its size.
///
/// It fails with `TooLong` if and only if more than 16,777,216 bytes would follow the length, and otherwise only with
/// `OutOfMemory`, if memory runs out.
pub fn encode(alloc: Global, frame: &Frame) -> Result<Vec<u8>, WireFault>
    requires { IsWell frame.now }
    ensures spelled { IfOk result (λ bytes. bytes.items ≡ spelling frame.now) }
    ensures faults { IfErr result (λ e. (e ≡ TooLong) ⊎ (e ≡ OutOfMemory)) }
    ensures too_long { result ≡ Err TooLong ↔ longest < length (body frame.now) }
{
    let Some(len) = body_len(frame) else {
        return Err(WireFault::TooLong);
    };
    let Ok(mut bytes) = Vec::with_capacity(alloc, 4 + len as usize) else {
        return Err(WireFault::OutOfMemory);
    };
    match put_frame(frame, len, &mut bytes) {
        Ok(()) => Ok(bytes),
        Err(_) => Err(WireFault::OutOfMemory),
    }
}
