//! Why there is no product.

ghost use Rattle.std.specs.Prelude.{◌≡◌};
ghost use Rattle.pg_verify.specs.declared.fault.VerifyFault.TheVariants.{OutOfMemory};

use std::alloc::{AllocError, AllocFailed};
use thiserror::Error;

/// Why there is no product.
#[derive(Clone, Copy, Debug, PartialEq, Eq, Error)]
pub enum VerifyFault {
    /// Memory ran out.
    #[error("out of memory")]
    OutOfMemory,
    /// More than 65,535 states are reached, or more than 16,777,216 states times input letters.
    #[error("product of circuit and automaton too large")]
    TooLarge,
}

impl From<AllocError> for VerifyFault {
    ghost from_gives = { λ _ e. e ≡ OutOfMemory };

    fn from(_e: AllocError) -> VerifyFault {
        VerifyFault::OutOfMemory
    }
}

impl<T: Drop> From<AllocFailed<T>> for VerifyFault {
    ghost from_gives = { λ _ e. e ≡ OutOfMemory };

    fn from(_e: AllocFailed<T>) -> VerifyFault {
        VerifyFault::OutOfMemory
    }
}
