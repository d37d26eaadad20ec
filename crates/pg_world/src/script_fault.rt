//! Why a script is refused.

ghost use Rattle.std.specs.Prelude.{◌≡◌};
ghost use Rattle.pg_world.specs.declared.script_fault.ScriptFault.TheVariants.{OutOfMemory};
ghost use Rattle.pg_world.specs.Mirrors.ScriptScan.{fault_in, refusal_in};

use pg_text::reading::Refusal;
use pg_text::tokens::TokenFault;
use std::alloc::{AllocError, AllocFailed};
use std::error::Error;
use std::fmt;

/// Why a script is refused. Offsets count bytes from 0 and point to the first byte of the token at fault; an offset at
/// the end of the text is the text's length.
#[derive(Clone, Copy, Debug, PartialEq, Eq)]
pub enum ScriptFault {
    /// The allocator refused a growth.
    OutOfMemory,
    /// No token begins at this offset, or the token there isn't allowed there.
    Syntax(usize),
    /// The number at this offset is over 4,294,967,295.
    NumberTooLarge(usize),
    /// No vertex of the game has this identifier.
    NoVertex(u32),
    /// There are more than 16 workers, or the line of the cut doesn't have exactly one number for each vertex, or one of
    /// its numbers isn't the number of a worker.
    CutMismatch,
}

impl fmt::Display for ScriptFault {
    ghost use Rattle.std.specs.Prelude.{Some};
    ghost use Rattle.pg_world.specs.ScriptFaultTexts.{fault_text};

    ghost output = { λ fault. Some (fault_text fault) };

    fn fmt<W: fmt::Write>(&self, f: &mut fmt::Formatter<W>) -> fmt::Result {
        match self {
            ScriptFault::OutOfMemory => f.write_str("out of memory"),
            ScriptFault::Syntax(offset) => write!(f, "syntax error at byte {offset}"),
            ScriptFault::NumberTooLarge(offset) => write!(f, "number too large at byte {offset}"),
            ScriptFault::NoVertex(id) => write!(f, "no vertex {id}"),
            ScriptFault::CutMismatch => f.write_str("the cut does not fit the game"),
        }
    }
}

impl Error for ScriptFault {}

impl From<AllocError> for ScriptFault {
    ghost from_gives = { λ _ e. e ≡ OutOfMemory };

    fn from(_e: AllocError) -> ScriptFault {
        ScriptFault::OutOfMemory
    }
}

impl<T: Drop> From<AllocFailed<T>> for ScriptFault {
    ghost from_gives = { λ _ e. e ≡ OutOfMemory };

    fn from(_e: AllocFailed<T>) -> ScriptFault {
        ScriptFault::OutOfMemory
    }
}

impl ScriptFault {
    /// Returns a token's fault as the fault of a script in a text of `len` bytes.
    pub(crate) fn of_token(fault: TokenFault, len: usize) -> ScriptFault
        ensures { result ≡ fault_in len fault }
    {
        match fault {
            TokenFault::Syntax(_) => ScriptFault::Syntax(fault.offset_in(len)),
            TokenFault::NumberTooLarge(_) => ScriptFault::NumberTooLarge(fault.offset_in(len)),
        }
    }

    /// Returns a refusal as the fault of a script in a text of `len` bytes.
    pub(crate) fn of_refusal(refusal: Refusal, len: usize) -> ScriptFault
        ensures { result ≡ refusal_in len refusal }
    {
        match refusal {
            Refusal::Memory => ScriptFault::OutOfMemory,
            Refusal::Token(fault) => ScriptFault::of_token(fault, len),
        }
    }
}
