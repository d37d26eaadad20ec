//! Why a text is refused.

ghost use Rattle.std.specs.Prelude.{◌≡◌};
ghost use Rattle.pg_text.specs.declared.fault.TextFault.TheVariants.{OutOfMemory, Write};
ghost use Rattle.pg_text.specs.Mirrors.Refusals.{arena_fault, token_fault_of, fault_of};

use crate::reading::Refusal;
use crate::tokens::TokenFault;
use pg_arena::ArenaFault;
use std::alloc::AllocError;
use std::error::Error;
use std::{fmt, io};

/// Why a text is refused or not written. Offsets count bytes from 0 and point to the first byte of the token at fault;
/// an offset at the end of the text is the text's length. The other numbers are identifiers.
#[derive(Clone, Copy, Debug, PartialEq, Eq)]
pub enum TextFault {
    /// Memory ran out.
    OutOfMemory,
    /// No token begins at this offset, or a string begins there and has no second quote, or the token there isn't one
    /// that may stand there.
    Syntax(usize),
    /// The number at this offset is over 4,294,967,295.
    NumberTooLarge(usize),
    /// The lines make no game, for this reason, which is never `OutOfMemory`.
    Arena(ArenaFault),
    /// The solution has a line with this identifier, and no vertex of the game has it, or the strategy in the line is
    /// no successor of the vertex.
    NotOfGame(u32),
    /// The solution has no line for the vertex with this identifier, or its winner owns it and the line has no
    /// strategy.
    Missing(u32),
    /// The writer failed. It may have written part of the text.
    Write,
}

impl fmt::Display for TextFault {
    ghost use Rattle.std.specs.Prelude.{Some};
    ghost use Rattle.pg_text.specs.FaultTexts.{fault_text};

    ghost output = { λ fault. Some (fault_text fault) };

    fn fmt<W: fmt::Write>(&self, f: &mut fmt::Formatter<W>) -> fmt::Result {
        match self {
            TextFault::OutOfMemory => f.write_str("out of memory"),
            TextFault::Syntax(offset) => write!(f, "syntax error at byte {offset}"),
            TextFault::NumberTooLarge(offset) => write!(f, "number too large at byte {offset}"),
            TextFault::Arena(fault) => write!(f, "{fault}"),
            TextFault::NotOfGame(id) => write!(f, "line of vertex {id} does not fit the game"),
            TextFault::Missing(id) => write!(f, "vertex {id} has no answer"),
            TextFault::Write => f.write_str("cannot write the output"),
        }
    }
}

impl Error for TextFault {}

impl From<ArenaFault> for TextFault {
    ghost from_gives = { λ fault e. e ≡ arena_fault fault };

    fn from(fault: ArenaFault) -> TextFault {
        match fault {
            ArenaFault::OutOfMemory => TextFault::OutOfMemory,
            _ => TextFault::Arena(fault),
        }
    }
}

impl From<AllocError> for TextFault {
    ghost from_gives = { λ _ e. e ≡ OutOfMemory };

    fn from(_e: AllocError) -> TextFault {
        TextFault::OutOfMemory
    }
}

impl From<io::Error> for TextFault {
    ghost from_gives = { λ _ e. e ≡ Write };

    fn from(_e: io::Error) -> TextFault {
        TextFault::Write
    }
}

impl TokenFault {
    /// Returns the fault in a text of this many bytes.
    pub(crate) fn in_text(self, len: usize) -> TextFault
        ensures { result ≡ token_fault_of len self }
    {
        match self {
            TokenFault::Syntax(_) => TextFault::Syntax(self.offset_in(len)),
            TokenFault::NumberTooLarge(_) => TextFault::NumberTooLarge(self.offset_in(len)),
        }
    }
}

impl Refusal {
    /// Returns the fault in a text of this many bytes.
    pub(crate) fn in_text(self, len: usize) -> TextFault
        ensures { result ≡ fault_of len self }
    {
        match self {
            Refusal::Memory => TextFault::OutOfMemory,
            Refusal::Token(fault) => fault.in_text(len),
        }
    }
}
