//! Links to workers in the same process.

ghost use Rattle.std.specs.Prelude.{◌≡◌, ◌≢◌, ◌↔◌, ◌⊎◌, ◌≤◌, ◌++◌, ℕ, List, [], None, length, drop, IsOk, OnOk, OnErr, IfErr};
ghost use Rattle.pg_map.specs.Maps.{MapValue};
ghost use Rattle.pg_wire.specs.declared.frame.Frame.{Frame};
ghost use Rattle.pg_wire.specs.Well.{IsWell};
ghost use Rattle.pg_wire.specs.Bytes.{Spells};
ghost use Rattle.pg_coord_partition.specs.Frames.{IsAtLeast, measures_in};
ghost use Rattle.pg_worker.specs.Turns.{HasRows};
ghost use Rattle.pg_worker.specs.Above.{AreFrames};
ghost use Rattle.pg_coord_partition.specs.Links.{IsUnderAfter, CountsFailure};
ghost use Rattle.pg_coord.specs.Memory.{started_link, still_waiting, Reports, Sends, SendsNoFrame, Empties, BreaksOff, IsAboveLink};
ghost use Rattle.pg_coord_links.specs.Counting.{count_after};

use crate::waiting::{first_len, put_fault};
use pg_coord_partition::{Link, LinkFault};
use pg_wire::{Frame, WireFault, decode};
use pg_worker::{Session, WorkerFault};
use std::alloc::Global;
use std::marker::Model;

/// A worker in the same process, driven by encoded frames. Its replies wait here until they are received.
///
/// If the worker refuses a frame, the reply is the report of the fault, if the fault has one; until the link is
/// restarted it then drops what is sent. A set-up discards the waiting replies, even if the worker refuses the set-up
/// or the link drops it.
#[derive(Drop)]
pub struct MemoryLink {
    alloc: Global,
    highest: u8,
    session: Session,
    has_refused: bool,
    /// The frames that wait, after `next` bytes that were already received.
    waiting: Vec<u8>,
    next: usize,
    failures: u64,
}

impl Model for MemoryLink {
    ghost use Rattle.std.specs.Prelude.{drop};
    ghost use Rattle.pg_coord.specs.Memory.{MemoryValue};
    ghost use Rattle.pg_coord.specs.Mirrors.Sessions.{IsKept};

    ghost Value = { MemoryValue };

    ghost view = { λ l. record {
      highest = l.highest;
      held = l.session.held;
      has_refused = l.has_refused;
      waiting = drop l.next l.waiting.items;
      failures = l.failures;
    } };

    ghost invariant = { λ l. IsKept l.highest l.session.highest l.session.held l.has_refused l.next l.waiting.items };
}

impl MemoryLink {
    /// Makes a link to a worker that accepts set-ups of both versions of the wire format. It never fails.
    pub fn new(alloc: Global) -> Result<MemoryLink, LinkFault>
        ensures { result ≡ Ok (started_link 2 0) }
    {
        MemoryLink::limited(alloc, 2)
    }

    /// Makes a link to a worker that accepts set-ups of versions up to `highest`, which is 1 or 2. It never fails.
    pub fn limited(alloc: Global, highest: u8) -> Result<MemoryLink, LinkFault>
        ensures { result ≡ Ok (started_link highest 0) }
    {
        Ok(MemoryLink {
            alloc,
            highest,
            session: Session::limited(alloc, highest),
            has_refused: false,
            waiting: Vec::new(alloc),
            next: 0,
            failures: 0,
        })
    }

    /// Drops the frames that wait.
    fn drop_waiting(&mut self)
        ensures { self.new ≡ record self.old { waiting = [] } }
    {
        self.waiting.clear();
        self.next = 0;
    }

    /// Removes the first `count` bytes that wait, which are whole frames.
    fn skip(&mut self, count: usize)
        requires within { count ≤ length self.old.waiting }
        requires frames { AreFrames (λ f. Unit {0}) (drop count self.old.waiting) }
        ensures { self.new ≡ record self.old { waiting = drop count self.old.waiting } }
    {
        self.next += count;
        if self.next == self.waiting.len() {
            self.drop_waiting();
        }
    }

    /// Drops the frames that wait if this frame is a set-up.
    fn make_way(&mut self, frame: &Frame)
        ensures { self.new ≡ record self.old { waiting = still_waiting frame.now self.old.waiting } }
    {
        if matches!(frame, Frame::Setup(_)) {
            self.drop_waiting();
        }
    }

    /// Makes the session anew, and sets whether frames that are sent are dropped.
    fn renew(&mut self, has_refused: bool)
        ensures { self.new ≡ record self.old { held = None; has_refused = has_refused } }
    {
        self.session = Session::limited(self.alloc, self.highest);
        self.has_refused = has_refused;
    }

    /// Reports why a frame is refused, and drops the frames that are sent from then on. If memory runs out, it isn't a
    /// refusal: the call fails with `OutOfMemory`, and nothing has changed.
    fn refuse(&mut self, fault: WorkerFault) -> Result<(), LinkFault>
        ensures ok { OnOk result ((fault ≢ WorkerFault.OutOfMemory) × Reports fault self.old.waiting self.new) }
        ensures memory { IfErr result (λ e. (e ≡ LinkFault.OutOfMemory) × (self.new ≡ self.old)) }
        ensures highest { self.new.highest ≡ self.old.highest }
        ensures failures { self.new.failures ≡ self.old.failures }
    {
        if matches!(fault, WorkerFault::OutOfMemory) {
            return Err(LinkFault::OutOfMemory);
        }
        put_fault(fault, &mut self.waiting)?;
        self.renew(true);
        Ok(())
    }

    /// Lets the session do the turn of a frame that has no rows, unless it has refused one.
    fn take(&mut self, frame: &Frame) -> Result<(), LinkFault>
        requires well { IsWell frame.now }
        requires no_rows { ¬ (HasRows frame.now) }
        ensures ok { OnOk result (Sends frame.now self.old self.new) }
        ensures memory { IfErr result (λ e. (e ≡ LinkFault.OutOfMemory) × Empties frame.now self.old self.new) }
        ensures highest { self.new.highest ≡ self.old.highest }
        ensures failures { self.new.failures ≡ self.old.failures }
    {
        self.make_way(frame);
        if self.has_refused {
            return Ok(());
        }
        match self.session.frame_without_rows(frame, &mut self.waiting) {
            Ok(_) => Ok(()),
            Err(fault) => self.refuse(fault),
        }
    }
}

impl MemoryLink {
    ghost use Rattle.std.specs.Prelude.{IfOk, IfSome, IsFalse, MatchBool};
    ghost use Rattle.pg_worker.specs.Turns.{SpellsRows};
    ghost use Rattle.pg_worker.specs.Mirrors.Sessions.{IsSmall};

    /// Lets the session do the turn of the frame of vertices or of values that the bytes spell, unless it has refused one.
    /// Returns false if they spell no such frame, and then nothing has changed.
    fn take_rows(&mut self, bytes: &[u8]) -> Result<bool, LinkFault>
        ensures small { IfSome self.old.held IsSmall }
        ensures rows { IfOk result (λ taken. IsFalse taken → ¬ (SpellsRows bytes.now)) }
        ensures ok { IfOk result (λ taken. MatchBool taken
            ((f : Frame) × Spells f bytes.now × Sends f self.old self.new) (self.new ≡ self.old)) }
        ensures memory { IfErr result (λ e. (e ≡ LinkFault.OutOfMemory) × BreaksOff bytes.now self.old self.new) }
        ensures highest { self.new.highest ≡ self.old.highest }
        ensures failures { self.new.failures ≡ self.old.failures }
    {
        match self.session.rows_from(bytes) {
            Ok(taken) => Ok(taken),
            Err(_) if self.has_refused => Ok(true),
            Err(fault) => {
                self.refuse(fault)?;
                Ok(true)
            }
        }
    }
}

impl Link for MemoryLink {
    ghost use Rattle.std.specs.Prelude.{⊤, None};
    ghost use Rattle.pg_coord.specs.Memory.{IsAboveLink};

    ghost failures = { λ l. l.failures };

    ghost is_honest = { λ l. ⊤ };

    ghost is_under = { IsAboveLink };

    ghost is_anew = { λ _. ⊤ };

    ghost told = { λ l. None };

    /// Lets the worker do the turn of the frame; its reply then waits. It is never `Failed`. After `OutOfMemory` either
    /// nothing has changed, or the worker holds nothing any more.
    fn send(&mut self, frame: &[u8]) -> Result<(), LinkFault>
        ensures under { OnOk result ((f : Frame) → Spells f frame.now → (h : MapValue)
            → IsUnderAfter f h (IsAboveLink self.old h) → IsAboveLink self.new h) }
        ensures sent { OnOk result ((f : Frame) → Spells f frame.now → Sends f self.old self.new) }
        ensures no_frame { OnOk result (((f : Frame) → ¬ (Spells f frame.now))
            → SendsNoFrame frame.now self.old self.new) }
        ensures memory { IfErr result (λ e. (e ≡ LinkFault.OutOfMemory) × BreaksOff frame.now self.old self.new) }
        ensures highest { self.new.highest ≡ self.old.highest }
        ensures failures { self.new.failures ≡ self.old.failures }
    {
        if self.take_rows(frame)? {
            return Ok(());
        }
        match decode(self.alloc, frame) {
            Ok(told) => self.take(&told),
            Err(WireFault::OutOfMemory) => Err(LinkFault::OutOfMemory),
            Err(_) if self.has_refused => Ok(()),
            Err(fault) => self.refuse(WorkerFault::Wire(fault)),
        }
    }

    /// Receives the next frame that waits. It is `Failed` if and only if none waits.
    fn receive(&mut self, frame: &mut Vec<u8>) -> Result<(), LinkFault>
        ensures counted { CountsFailure self.old.failures self.new.failures result }
        ensures under { (h : MapValue) → IsAboveLink self.old h → IsAboveLink self.new h }
        ensures values { OnOk result ((h : MapValue) → IsAboveLink self.old h
            → (f : Frame) → Spells f frame.new.items → IsAtLeast h.measures (measures_in f)) }
        ensures next { OnOk result (self.old.waiting ≡ frame.new.items ++ self.new.waiting) }
        ensures frame { OnOk result ((f : Frame) × Spells f frame.new.items) }
        ensures none { result ≡ Err LinkFault.Failed ↔ self.old.waiting ≡ [] }
        ensures failures { self.new.failures ≡ count_after result self.old.failures }
        ensures kept { OnErr result (self.new.waiting ≡ self.old.waiting) }
        ensures session { (self.new.highest ≡ self.old.highest) × (self.new.held ≡ self.old.held)
            × (self.new.has_refused ≡ self.old.has_refused) }
    {
        if self.next == self.waiting.len() {
            self.failures = self.failures.saturating_add(1);
            return Err(LinkFault::Failed);
        }
        let (_, rest) = self.waiting.split_at(self.next);
        let (next, _) = rest.split_at(first_len(rest));
        frame.clear();
        frame.extend_from_slice(next)?;
        let count = next.len();
        self.skip(count);
        Ok(())
    }

    /// Starts the worker anew, and drops the frames that wait. It never fails.
    fn restart(&mut self) -> Result<(), LinkFault>
        ensures ok { IsOk result }
        ensures started { self.new ≡ started_link self.old.highest self.old.failures }
    {
        self.renew(false);
        self.waiting = Vec::new(self.alloc);
        self.next = 0;
        Ok(())
    }
}
