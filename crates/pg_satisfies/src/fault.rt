//! Why there is no verdict on a circuit and a formula.

ghost use Rattle.std.specs.Prelude.{◌≡◌};
ghost use Rattle.pg_satisfies.specs.declared.fault.SatisfiesFault.TheVariants.{OutOfMemory};

use std::alloc::{AllocError, AllocFailed};
use thiserror::Error;

/// Why there is no verdict on a circuit and a formula.
#[derive(Clone, Copy, Debug, PartialEq, Eq, Error)]
pub enum SatisfiesFault {
    /// Memory ran out.
    #[error("out of memory")]
    OutOfMemory,
    /// The search for a verdict reached one of its limits.
    #[error("circuit and formula too large together")]
    TooLarge,
    /// What the search proposed doesn't pass the check.
    #[error("undecided")]
    Undecided,
}

impl From<AllocError> for SatisfiesFault {
    ghost from_gives = { λ _ e. e ≡ OutOfMemory };

    fn from(_e: AllocError) -> SatisfiesFault {
        SatisfiesFault::OutOfMemory
    }
}

impl<T: Drop> From<AllocFailed<T>> for SatisfiesFault {
    ghost from_gives = { λ _ e. e ≡ OutOfMemory };

    fn from(_e: AllocFailed<T>) -> SatisfiesFault {
        SatisfiesFault::OutOfMemory
    }
}
