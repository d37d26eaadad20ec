//! Why a text is refused, with offsets counted from its end.

ghost use Rattle.std.specs.Prelude.{◌≡◌};
ghost use Rattle.pg_hoa_syntax.specs.declared.fault.PartRefusal.TheVariants.{Memory};

use std::alloc::{AllocError, AllocFailed};
use std::fmt;

/// A part of HOA v1 that this reader doesn't support.
#[derive(Clone, Copy, Debug, PartialEq, Eq)]
pub enum LeftOutName {
    /// The header `Alias:`, or a name that begins with `@`.
    Alias,
    /// A label after `State:`.
    StateLabel,
    /// An edge without a label.
    ImplicitLabel,
    /// A conjunction of states, at its `&`.
    Universal,
    /// A second `Start:`.
    SeveralStarts,
    /// No `Start:`.
    NoStart,
    /// `Inf(!s)` or `Fin(!s)`, at its `!`.
    NegatedSet,
    /// `HOA:` after `--END--`.
    SeveralAutomata,
    /// `--ABORT--`.
    Abort,
}

impl fmt::Display for LeftOutName {
    ghost use Rattle.std.specs.Prelude.{Some};
    ghost use Rattle.pg_hoa_syntax.specs.FaultTexts.{left_out_text};

    ghost output = { λ name. Some (left_out_text name) };

    fn fmt<W: fmt::Write>(&self, f: &mut fmt::Formatter<W>) -> fmt::Result {
        f.write_str(match self {
            LeftOutName::Alias => "alias",
            LeftOutName::StateLabel => "state label",
            LeftOutName::ImplicitLabel => "implicit label",
            LeftOutName::Universal => "universal branching",
            LeftOutName::SeveralStarts => "second Start",
            LeftOutName::NoStart => "missing Start",
            LeftOutName::NegatedSet => "negated set",
            LeftOutName::SeveralAutomata => "second automaton",
            LeftOutName::Abort => "--ABORT--",
        })
    }
}

/// What is wrong with a text, or with its last part. Instead of an offset, a fault carries the number of bytes from the
/// token at fault to the end.
#[derive(Clone, Copy)]
pub enum PartFault {
    /// No token begins there, or a comment or string that begins there doesn't end, or the token there isn't one that
    /// may stand there.
    Syntax(usize),
    /// HOA v1 allows what is there, and this reader doesn't support it.
    LeftOut(LeftOutName, usize),
    /// A header that HOA v1 doesn't know, whose name begins with an upper-case letter.
    UnknownHeader(usize),
    /// The number of a state, a proposition or a set there isn't below its count.
    OutOfRange(usize),
    /// The acceptance condition has none of the six shapes.
    NotParity,
    /// A number over 4,294,967,295, a count over its limit, or nesting deeper than 8,192.
    TooLarge,
    /// The proposition of this number has an empty name, or a name with a byte below 32 or the byte 127.
    BadName(u32),
}

/// Why a text, or its last part, is refused.
#[derive(Clone, Copy)]
pub enum PartRefusal {
    /// Memory ran out.
    Memory,
    /// The text is wrong, however much memory there is.
    Wrong(PartFault),
}

impl From<AllocError> for PartRefusal {
    ghost from_gives = { λ _ e. e ≡ Memory };

    fn from(_e: AllocError) -> PartRefusal {
        PartRefusal::Memory
    }
}

impl<T: Drop> From<AllocFailed<T>> for PartRefusal {
    ghost from_gives = { λ _ e. e ≡ Memory };

    fn from(_e: AllocFailed<T>) -> PartRefusal {
        PartRefusal::Memory
    }
}
