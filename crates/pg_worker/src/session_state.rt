//! The state of a session.

ghost use Rattle.std.specs.Prelude.{◌≡◌};

use crate::Worker;
use pg_wire::ValueKind;
use std::marker::Model;

/// The state of a session from a set-up on: the kind of frames in which values go, whether values or a Go came, and the
/// worker.
#[derive(Drop)]
pub struct SessionState {
    pub kind: ValueKind,
    pub is_started: bool,
    pub worker: Worker,
    /// A place for each component of a measure.
    pub row: Vec<u32>,
}

impl Model for SessionState {
    ghost use Rattle.std.specs.Prelude.{◌≡◌, ◌≤◌, length};
    ghost use Rattle.pg_worker.specs.Turns.{SessionValue};

    ghost Value = { SessionValue };

    ghost view = { λ h. record { kind = h.kind; is_started = h.is_started; worker = h.worker } };

    ghost invariant = { λ h. (length h.worker.bounds ≤ 32768) × (length h.row.items ≡ length h.worker.bounds) };
}

/// Puts `new` in place of the state that is held, and drops the old one.
pub fn replace_state(held: &mut Option<SessionState>, new: Option<SessionState>)
    ensures { held.new ≡ new }
{
    *held = new;
}
