//! Sends and receives frames over links.

ghost use Rattle.std.specs.Prelude.{◌≡◌, ◌≢◌, ◌≤◌, ℕ, List, Some, Err, length, All, IfOk, OnOk};
ghost use Rattle.pg_map.specs.Maps.{MapValue};
ghost use Rattle.pg_wire.specs.Spelling.{body, longest};
ghost use Rattle.pg_wire.specs.Bytes.{Spells};
ghost use Rattle.pg_wire.specs.Well.{IsWell};
ghost use Rattle.pg_coord_partition.specs.Frames.{IsAtLeast, measures_in};
ghost use Rattle.pg_coord_partition.specs.Links.{IsUnderAfter, told_after};
ghost use Rattle.pg_coord_rounds.specs.Mirrors.Takes.{TakesFrame};

use pg_coord_partition::{Link, LinkFault};
use pg_wire::{Frame, WireFault, decode, write_frame};
use std::alloc::Global;

/// Sends one frame. Its bytes replace the contents of the buffer. It fails with `Failed` only if the link's call does.
pub fn send_frame<L: Link>(
    link: &mut L,
    frame: &Frame,
    buffer: &mut Vec<u8>,
) -> Result<(), LinkFault>
    requires well { IsWell frame.now }
    requires within { length (body frame.now) ≤ longest }
    ensures honest { L.is_honest link.old → L.is_honest link.new }
    ensures under { OnOk result (L.is_honest link.old → (h : MapValue)
        → IsUnderAfter frame.now h (L.is_under link.old h) → L.is_under link.new h) }
    ensures told { (left : List (List ℕ)) → L.told link.old ≡ Some left
        → (result ≢ Err LinkFault.Failed) × OnOk result (L.told link.new ≡ Some (told_after frame.now left)) }
{
    buffer.clear();
    match write_frame(frame, buffer) {
        Ok(()) => link.send(buffer.as_slice()),
        Err(_) => Err(LinkFault::OutOfMemory),
    }
}

/// Receives one frame. Its bytes replace the contents of the buffer. It fails with `Failed` if the link's call does, and if
/// the bytes are no frame.
pub fn receive_frame<L: Link>(
    alloc: Global,
    link: &mut L,
    buffer: &mut Vec<u8>,
) -> Result<Frame, LinkFault>
    ensures honest { L.is_honest link.old → L.is_honest link.new }
    ensures under { L.is_honest link.old → (h : MapValue) → L.is_under link.old h → L.is_under link.new h }
    ensures well { IfOk result IsWell }
    ensures spelled { IfOk result (λ f. Spells f buffer.new.items) }
    ensures values { IfOk result (λ f. L.is_honest link.old → (h : MapValue) → L.is_under link.old h
        → IsAtLeast h.measures (measures_in f)) }
    ensures told { TakesFrame (L.told link.old) (L.told link.new) result }
{
    link.receive(buffer)?;
    match decode(alloc, buffer.as_slice()) {
        Ok(frame) => Ok(frame),
        Err(WireFault::OutOfMemory) => Err(LinkFault::OutOfMemory),
        Err(_) => Err(LinkFault::Failed),
    }
}

/// The bytes of Halt.
const HALT: [u8; 5] = [0, 0, 0, 1, 6];

/// Ends the workers: sends Halt over each link. It ignores the results of the calls.
pub fn halt<L: Link>(links: &mut [L])
    ensures { All L.is_honest links.old → All L.is_honest links.new }
{
    for i in 0..links.len() {
        let _sent = links[i].send(&HALT);
    }
}
