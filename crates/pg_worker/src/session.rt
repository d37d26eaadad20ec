//! Sessions: workers that are driven by frames.

ghost use Rattle.std.specs.Prelude.{◌≡◌, ◌↔◌, ℕ, ◌<◌, ◌≤◌, ◌++◌, ◌⊎◌, List, [], length, None, Err, IsTrue, false, MatchBool, IfOk, IfErr, OnOk, OnErr};
ghost use Rattle.pg_wire.specs.Spelling.{body, longest};
ghost use Rattle.pg_wire.specs.Well.{IsWell};
ghost use Rattle.pg_wire.specs.declared.fault.WireFault.TheVariants.{TooLong};
ghost use Rattle.pg_wire.specs.declared.frame.Frame.TheVariants.{Halt};
ghost use Rattle.pg_worker.specs.Turns.{Turn, IsUpTo, Refuses, DoesTurn, HasRows, SpellsRows, RefusesBytes};

use crate::WorkerFault;
use crate::fault::own;
use crate::session_state::{SessionState, replace_state};
use crate::turn::{turn, turn_of_rows};
use pg_wire::{Frame, decode, encode};
use std::alloc::Global;

/// A worker that receives its orders as frames, and answers with frames. Before a set-up, after Halt and after a refusal it
/// holds nothing.
#[derive(Drop)]
pub struct Session {
    alloc: Global,
    highest: u8,
    held: Option<SessionState>,
}

impl Session {
    /// Makes a session that accepts set-ups of both versions of the wire format.
    pub fn new(alloc: Global) -> Session
        ensures highest { result.highest ≡ 2 }
        ensures held { result.held ≡ None }
    {
        Session::limited(alloc, 2)
    }

    /// Makes a session that accepts set-ups of versions up to `highest`, which is 1 or 2.
    pub fn limited(alloc: Global, highest: u8) -> Session
        ensures highest { result.highest ≡ highest }
        ensures held { result.held ≡ None }
    {
        Session {
            alloc,
            highest,
            held: None,
        }
    }

    /// Handles one frame, and appends the reply to `out`. Returns true for Halt, after which the session holds nothing.
    ///
    /// A set-up starts the worker anew, with an empty part and zeros; the reply to one of version 2 is the report of a
    /// quiet worker. Vertices join the part; they come before the first values or Go. Values join the map: Values under
    /// version 1, Sparse under version 2. At a Go the worker lifts, and replies with frames that have the measures of
    /// the vertices that it lifted, each once and rising, and with a report.
    ///
    /// Faults: `Wire(TooLong)` if and only if the frame is too long to be spelled; `Wire(Version)` for a set-up of a
    /// version above the session's highest; `Order` for a frame out of turn, and for vertices that don't rise;
    /// `BadUpdate` for lines, a width or values that don't fit the game; `OutOfMemory`, also, however much memory there
    /// is, for a set-up with more than 67,108,864 vertices times bounds. After a fault `out` is as before, and the
    /// session holds nothing.
    pub fn frame(&mut self, frame: &Frame, out: &mut Vec<u8>) -> Result<bool, WorkerFault>
        requires { IsWell frame.now }
        ensures highest { self.new.highest ≡ self.old.highest }
        ensures version { OnOk result (IsUpTo self.old.highest frame.now) }
        ensures turn { OnOk result ((reply : List ℕ) × Turn self.old.held frame.now self.new.held reply
            × (out.new.items ≡ out.old.items ++ reply)) }
        ensures halt { IfOk result (λ halts. IsTrue halts ↔ (frame.now ≡ Halt)) }
        ensures refused { length (body frame.now) ≤ longest → IfErr result (λ e. (e ≡ WorkerFault.OutOfMemory)
            ⊎ Refuses self.old.highest self.old.held frame.now e) }
        ensures too_long { longest < length (body frame.now) → result ≡ Err (WorkerFault.Wire TooLong) }
        ensures same { OnErr result (out.new.items ≡ out.old.items) }
        ensures empty { OnErr result (self.new.held ≡ None) }
    {
        match encode(self.alloc, frame) {
            Ok(bytes) => self.frame_from(&bytes, out),
            Err(fault) => {
                replace_state(&mut self.held, None);
                Err(own(fault))
            }
        }
    }

    /// Handles the frame that the bytes, all of them, spell, as `frame` does. It reads measures from the bytes one after
    /// another, without taking memory.
    ///
    /// Faults: those of `frame`, and `Wire` with the fault of `decode` if the bytes spell no frame. After a fault `out`
    /// is as before, and the session holds nothing.
    pub fn frame_from(&mut self, bytes: &[u8], out: &mut Vec<u8>) -> Result<bool, WorkerFault>
        ensures highest { self.new.highest ≡ self.old.highest }
        ensures turn { IfOk result (λ halts. (reply : List ℕ)
            × DoesTurn self.old.highest self.old.held bytes.now self.new.held halts reply
            × (out.new.items ≡ out.old.items ++ reply)) }
        ensures refused { IfErr result (λ e. (e ≡ WorkerFault.OutOfMemory)
            ⊎ RefusesBytes self.old.highest self.old.held bytes.now e) }
        ensures same { OnErr result (out.new.items ≡ out.old.items) }
        ensures empty { OnErr result (self.new.held ≡ None) }
    {
        if self.rows_from(bytes)? {
            return Ok(false);
        }
        match decode(self.alloc, bytes) {
            Ok(frame) => self.frame_without_rows(&frame, out),
            Err(fault) => {
                replace_state(&mut self.held, None);
                Err(own(fault))
            }
        }
    }

    /// Handles a frame that has no rows, which are vertices or values, as `frame` does.
    ///
    /// Faults: those of `frame` for that frame. After a fault `out` is as before, and the session holds nothing.
    pub fn frame_without_rows(
        &mut self,
        frame: &Frame,
        out: &mut Vec<u8>,
    ) -> Result<bool, WorkerFault>
        requires well { IsWell frame.now }
        requires no_rows { ¬ (HasRows frame.now) }
        ensures highest { self.new.highest ≡ self.old.highest }
        ensures version { OnOk result (IsUpTo self.old.highest frame.now) }
        ensures turn { OnOk result ((reply : List ℕ) × Turn self.old.held frame.now self.new.held reply
            × (out.new.items ≡ out.old.items ++ reply)) }
        ensures halt { IfOk result (λ halts. IsTrue halts ↔ (frame.now ≡ Halt)) }
        ensures refused { IfErr result (λ e. (e ≡ WorkerFault.OutOfMemory)
            ⊎ Refuses self.old.highest self.old.held frame.now e) }
        ensures same { OnErr result (out.new.items ≡ out.old.items) }
        ensures empty { OnErr result (self.new.held ≡ None) }
    {
        let before = out.len();
        match turn(self.alloc, self.highest, &mut self.held, frame, out) {
            Ok(halts) => Ok(halts),
            Err(fault) => {
                replace_state(&mut self.held, None);
                out.truncate(before);
                Err(fault)
            }
        }
    }

    /// Handles a frame of vertices or of values, which has no reply, as `frame_from` does. Returns true if the bytes spell
    /// such a frame, which is then handled. Returns false if they don't, and then nothing has changed.
    ///
    /// Faults: those of `frame` for that frame. After a fault the session holds nothing.
    pub fn rows_from(&mut self, bytes: &[u8]) -> Result<bool, WorkerFault>
        ensures highest { self.new.highest ≡ self.old.highest }
        ensures rows { IfOk result (λ taken. IsTrue taken ↔ SpellsRows bytes.now) }
        ensures turn { IfOk result (λ taken. MatchBool taken
            (DoesTurn self.old.highest self.old.held bytes.now self.new.held false [])
            (self.new.held ≡ self.old.held)) }
        ensures fault { OnErr result (SpellsRows bytes.now) }
        ensures refused { IfErr result (λ e. (e ≡ WorkerFault.OutOfMemory)
            ⊎ RefusesBytes self.old.highest self.old.held bytes.now e) }
        ensures empty { OnErr result (self.new.held ≡ None) }
    {
        match turn_of_rows(self.alloc, &mut self.held, bytes) {
            Ok(taken) => Ok(taken),
            Err(fault) => {
                replace_state(&mut self.held, None);
                Err(fault)
            }
        }
    }
}
