//! Links to workers.

ghost use Rattle.std.specs.Prelude.{◌≡◌, ℕ, Option, List, OnOk};
ghost use Rattle.pg_map.specs.Maps.{MapValue};
ghost use Rattle.pg_wire.specs.Bytes.{Spells};
ghost use Rattle.pg_wire.specs.declared.frame.Frame.{Frame};
ghost use Rattle.pg_coord_partition.specs.Frames.{IsAtLeast, measures_in};
ghost use Rattle.pg_coord_partition.specs.Links.{IsUnderAfter, CountsFailure, SendsTold, RestartsTold, HandsOver};

use std::alloc::AllocError;

/// Why a call of a link failed.
#[derive(Clone, Copy, Debug, PartialEq, Eq)]
pub enum LinkFault {
    /// The allocator refused a growth.
    OutOfMemory,
    /// The worker can't be reached, or nothing came back. The link counts these.
    Failed,
}

impl From<AllocError> for LinkFault {
    ghost use Rattle.pg_coord_partition.specs.declared.link.LinkFault.TheVariants.{OutOfMemory};

    ghost from_gives = { λ _ e. e ≡ OutOfMemory };

    fn from(_: AllocError) -> LinkFault {
        LinkFault::OutOfMemory
    }
}

/// A connection to a worker, over which frames are sent and received. Nobody has to trust its replies: only contracts say
/// whether a link is honest.
pub trait Link {
    /// The number of calls that were `Failed`, up to 18,446,744,073,709,551,615.
    ghost failures: { Self → ℕ };

    /// Whether each value that it returns is at most that of every map that the link is under.
    ghost is_honest: { Self → Type 0 };

    /// The maps that the link is under: those that are closed at the vertices sent to it since its set-up, and at least the
    /// values sent to it since then.
    ghost is_under: { Self → MapValue → Type 0 };

    /// Whether the worker was started anew, and nothing was sent to it since then.
    ghost is_anew: { Self → Type 0 };

    /// The frames that the link will still return, if it tells them.
    ghost told: { Self → Option (List (List ℕ)) };

    /// Called before the link is set up, so that slow work can begin. Nothing that contracts know of the link changes.
    fn prepare(&mut self)
        ensures { self.new ≡ self.old }
    {}

    /// Sends the bytes of one frame.
    fn send(&mut self, frame: &[u8]) -> Result<(), LinkFault>
        ensures counted { CountsFailure (failures self.old) (failures self.new) result }
        ensures honest { is_honest self.old → is_honest self.new }
        ensures under { OnOk result (is_honest self.old → (f : Frame) → Spells f frame.now → (h : MapValue)
            → IsUnderAfter f h (is_under self.old h) → is_under self.new h) }
        ensures told { (f : Frame) → Spells f frame.now → SendsTold f (told self.old) (told self.new) result };

    /// Receives the bytes of the next frame into the vector, in place of its contents. After a fault the content of the
    /// vector is unspecified.
    fn receive(&mut self, frame: &mut Vec<u8>) -> Result<(), LinkFault>
        ensures counted { CountsFailure (failures self.old) (failures self.new) result }
        ensures honest { is_honest self.old → is_honest self.new }
        ensures under { is_honest self.old → (h : MapValue) → is_under self.old h → is_under self.new h }
        ensures values { OnOk result (is_honest self.old → (h : MapValue) → is_under self.old h
            → (f : Frame) → Spells f frame.new.items → IsAtLeast h.measures (measures_in f)) }
        ensures told { HandsOver (told self.old) (told self.new) result frame.new.items };

    /// Starts the worker anew; it must then be set up again.
    fn restart(&mut self) -> Result<(), LinkFault>
        ensures counted { CountsFailure (failures self.old) (failures self.new) result }
        ensures honest { is_honest self.old → is_honest self.new }
        ensures anew { OnOk result (is_anew self.new) }
        ensures told { RestartsTold (told self.old) (told self.new) result };
}
