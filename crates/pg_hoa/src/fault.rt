//! Why an automaton text is refused.

ghost use Rattle.std.specs.Prelude.{◌≡◌};
ghost use Rattle.pg_hoa.specs.Mirrors.Faults.{in_text, refusal_in_text, conflict_fault};

use pg_hoa_syntax::{LeftOutName, PartFault, PartRefusal};
use std::alloc::AllocError;
use std::error::Error;
use std::fmt;

/// Why a text is refused. Offsets count bytes from 0 and point to the first byte of the token at fault; an offset at
/// the end of the text is the text's length.
#[derive(Clone, Copy, Debug, PartialEq, Eq)]
pub enum HoaFault {
    /// Memory ran out.
    OutOfMemory,
    /// No token begins at this offset, or a comment or string begins there and doesn't end, or the token there isn't
    /// one that may stand there.
    Syntax(usize),
    /// HOA v1 allows what is at this offset, and this reader doesn't support it.
    LeftOut(LeftOutName, usize),
    /// A header that HOA v1 doesn't know, whose name begins with an upper-case letter.
    UnknownHeader(usize),
    /// The number of a state, a proposition or a set at this offset isn't below its count.
    OutOfRange(usize),
    /// The acceptance condition has none of the six shapes.
    NotParity,
    /// Two edges of this state match this letter, and they lead to different states or their deciding sets differ. It
    /// is the least state with such a letter, and its least such letter.
    NotDeterministic(u32, u32),
    /// A number over 4,294,967,295, a count over its limit, or nesting deeper than 8,192.
    TooLarge,
    /// The proposition of this number has an empty name, or a name with a byte below 32 or the byte 127.
    BadName(u32),
}

impl fmt::Display for HoaFault {
    ghost use Rattle.std.specs.Prelude.{Some};
    ghost use Rattle.pg_hoa.specs.FaultTexts.{fault_text};

    ghost output = { λ fault. Some (fault_text fault) };

    fn fmt<W: fmt::Write>(&self, f: &mut fmt::Formatter<W>) -> fmt::Result {
        match self {
            HoaFault::OutOfMemory => f.write_str("out of memory"),
            HoaFault::Syntax(offset) => write!(f, "syntax error at byte {offset}"),
            HoaFault::LeftOut(name, offset) => write!(
                f,
                "{name} at byte {offset} is not supported"
            ),
            HoaFault::UnknownHeader(offset) => write!(f, "unknown header at byte {offset}"),
            HoaFault::OutOfRange(offset) => write!(f, "number out of range at byte {offset}"),
            HoaFault::NotParity => f.write_str("acceptance is not a supported parity condition"),
            HoaFault::NotDeterministic(state, letter) => {
                write!(f, "state {state} is not deterministic at letter {letter}")
            }
            HoaFault::TooLarge => f.write_str("automaton too large"),
            HoaFault::BadName(proposition) => write!(f, "bad name of proposition {proposition}"),
        }
    }
}

impl Error for HoaFault {}

/// Returns the fault of a text of `len` bytes, for the reason given by the reader of its tokens.
pub fn in_text(refusal: PartRefusal, len: usize) -> HoaFault
    ensures { result ≡ refusal_in_text len refusal }
{
    match refusal {
        PartRefusal::Memory => HoaFault::OutOfMemory,
        PartRefusal::Wrong(fault) => wrong_in_text(fault, len),
    }
}

/// Returns the fault of a text of `len` bytes in which this is wrong.
fn wrong_in_text(fault: PartFault, len: usize) -> HoaFault
    ensures { result ≡ in_text len fault }
{
    match fault {
        PartFault::Syntax(left) => HoaFault::Syntax(len.saturating_sub(left)),
        PartFault::LeftOut(name, left) => HoaFault::LeftOut(name, len.saturating_sub(left)),
        PartFault::UnknownHeader(left) => HoaFault::UnknownHeader(len.saturating_sub(left)),
        PartFault::OutOfRange(left) => HoaFault::OutOfRange(len.saturating_sub(left)),
        PartFault::NotParity => HoaFault::NotParity,
        PartFault::TooLarge => HoaFault::TooLarge,
        PartFault::BadName(proposition) => HoaFault::BadName(proposition),
    }
}

/// Why no table of steps is made.
#[derive(Clone, Copy)]
pub enum Conflict {
    /// Memory ran out.
    Memory,
    /// Steps of this state by this letter don't agree. It is the least such state, and its least such letter.
    NotDeterministic(u32, u32),
}

impl From<AllocError> for Conflict {
    ghost use Rattle.pg_hoa.specs.declared.fault.Conflict.TheVariants as conflicts;

    ghost from_gives = { λ _ e. e ≡ conflicts.Memory };

    fn from(_e: AllocError) -> Conflict {
        Conflict::Memory
    }
}

impl From<Conflict> for HoaFault {
    ghost from_gives = { λ conflict e. e ≡ conflict_fault conflict };

    fn from(conflict: Conflict) -> HoaFault {
        match conflict {
            Conflict::Memory => HoaFault::OutOfMemory,
            Conflict::NotDeterministic(state, letter) => HoaFault::NotDeterministic(state, letter),
        }
    }
}
