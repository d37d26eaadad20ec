//! Why a game or a machine is refused.

ghost use Rattle.std.specs.Prelude.{◌≡◌};
ghost use Rattle.pg_synth.specs.declared.fault.SynthFault.TheVariants.{OutOfMemory};

use std::alloc::{AllocError, AllocFailed};
use std::error::Error;
use std::fmt;

/// Why there is no game or no machine.
#[derive(Clone, Copy, Debug, PartialEq, Eq)]
pub enum SynthFault {
    /// Memory ran out.
    OutOfMemory,
    /// The game has more than 1,048,576 vertices or more than 8,388,608 edges.
    TooLarge,
}

impl fmt::Display for SynthFault {
    ghost use Rattle.std.specs.Prelude.{Some};
    ghost use Rattle.pg_synth.specs.FaultTexts.{fault_text};

    ghost output = { λ fault. Some (fault_text fault) };

    fn fmt<W: fmt::Write>(&self, f: &mut fmt::Formatter<W>) -> fmt::Result {
        f.write_str(match self {
            SynthFault::OutOfMemory => "out of memory",
            SynthFault::TooLarge => "game of the automaton too large",
        })
    }
}

impl Error for SynthFault {}

impl From<AllocError> for SynthFault {
    ghost from_gives = { λ _ e. e ≡ OutOfMemory };

    fn from(_e: AllocError) -> SynthFault {
        SynthFault::OutOfMemory
    }
}

impl<T: Drop> From<AllocFailed<T>> for SynthFault {
    ghost from_gives = { λ _ e. e ≡ OutOfMemory };

    fn from(_e: AllocFailed<T>) -> SynthFault {
        SynthFault::OutOfMemory
    }
}
