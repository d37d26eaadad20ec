//! Why an event is refused.

ghost use Rattle.std.specs.Prelude.{◌≡◌};
ghost use Rattle.pg_world.specs.declared.fault.WorldFault.TheVariants.{OutOfMemory};

use std::alloc::{AllocError, AllocFailed};
use thiserror::Error;

/// Why a world can't be made, or why it refuses an event.
#[derive(Clone, Copy, Debug, PartialEq, Eq, Error)]
pub enum WorldFault {
    /// The allocator refused a growth.
    #[error("out of memory")]
    OutOfMemory,
    /// There is no replica, or no worker, with this number.
    #[error("no replica {0}")]
    NoSuchReplica(u32),
    /// The second number is the identifier of a vertex, which doesn't belong to the worker with the first number.
    #[error("vertex {1} is not of worker {0}")]
    NotMine(u32, u32),
    /// No update with this number was made.
    #[error("update {0} was never made")]
    NoSuchUpdate(usize),
    /// The cut doesn't have the vertices of the game.
    #[error("the cut does not fit the game")]
    CutMismatch,
}

impl From<AllocError> for WorldFault {
    ghost from_gives = { λ _ e. e ≡ OutOfMemory };

    fn from(_e: AllocError) -> WorldFault {
        WorldFault::OutOfMemory
    }
}

impl<T: Drop> From<AllocFailed<T>> for WorldFault {
    ghost from_gives = { λ _ e. e ≡ OutOfMemory };

    fn from(_e: AllocFailed<T>) -> WorldFault {
        WorldFault::OutOfMemory
    }
}
