//! Why a game isn't solved.

use std::alloc::AllocError;
use thiserror::Error;

/// Why a call solved nothing.
#[derive(Clone, Copy, Debug, PartialEq, Eq, Error)]
pub enum CoordFault {
    /// Memory ran out, here or in a link.
    #[error("out of memory")]
    OutOfMemory,
    /// The cut doesn't have the vertices of the game, or its number of workers isn't the number of links.
    #[error("the cut does not fit the game")]
    CutMismatch,
}

impl From<AllocError> for CoordFault {
    ghost use Rattle.std.specs.Prelude.{◌≡◌};
    ghost use Rattle.pg_coord_rounds.specs.declared.fault.CoordFault.TheVariants.{OutOfMemory};

    ghost from_gives = { λ _ e. e ≡ OutOfMemory };

    fn from(_e: AllocError) -> CoordFault {
        CoordFault::OutOfMemory
    }
}
