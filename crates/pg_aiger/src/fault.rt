//! Why a circuit is refused.

ghost use Rattle.std.specs.Prelude.{◌≡◌};
ghost use Rattle.pg_aiger.specs.declared.fault.AigerFault.TheVariants.{OutOfMemory, Write};

use std::alloc::{AllocError, AllocFailed};
use std::error::Error;
use std::{fmt, io};

/// Why a circuit can't be made, make a step, or be written.
#[derive(Clone, Copy, Debug, PartialEq, Eq)]
pub enum AigerFault {
    /// Memory ran out.
    OutOfMemory,
    /// The circuit could have more than 1,073,741,823 variables.
    TooLarge,
    /// The writer failed. It may have written part of the text.
    Write,
}

impl fmt::Display for AigerFault {
    ghost use Rattle.std.specs.Prelude.{Some};
    ghost use Rattle.pg_aiger.specs.FaultTexts.{fault_text};

    ghost output = { λ fault. Some (fault_text fault) };

    fn fmt<W: fmt::Write>(&self, f: &mut fmt::Formatter<W>) -> fmt::Result {
        f.write_str(match self {
            AigerFault::OutOfMemory => "out of memory",
            AigerFault::TooLarge => "circuit too large",
            AigerFault::Write => "cannot write the output",
        })
    }
}

impl Error for AigerFault {}

impl From<AllocError> for AigerFault {
    ghost from_gives = { λ _ e. e ≡ OutOfMemory };

    fn from(_e: AllocError) -> AigerFault {
        AigerFault::OutOfMemory
    }
}

impl<T: Drop> From<AllocFailed<T>> for AigerFault {
    ghost from_gives = { λ _ e. e ≡ OutOfMemory };

    fn from(_e: AllocFailed<T>) -> AigerFault {
        AigerFault::OutOfMemory
    }
}

impl From<io::Error> for AigerFault {
    ghost from_gives = { λ _ e. e ≡ Write };

    fn from(_e: io::Error) -> AigerFault {
        AigerFault::Write
    }
}
