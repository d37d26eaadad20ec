//! Why a circuit's text is refused, or doesn't match an automaton.

ghost use Rattle.std.specs.Prelude.{◌≡◌};
ghost use Rattle.pg_aiger_reader.specs.declared.fault.ReaderFault.TheVariants.{OutOfMemory};
ghost use Rattle.std.specs.Fmt.{WritesOnOk};
ghost use Rattle.pg_aiger_reader.specs.FaultTexts.{side_fault_text};
ghost use Rattle.pg_aiger_reader.specs.Mirrors.Steps.{turned};

use crate::name::Name;
use std::alloc::{AllocError, AllocFailed};
use std::error::Error;
use std::fmt;

/// A part of AIGER 1.9 that this reader doesn't support.
#[derive(Clone, Copy, Debug, PartialEq, Eq)]
pub enum Section {
    BadStates,
    Constraints,
    Justice,
    Fairness,
}

/// Why a text spells no circuit, or one that this reader doesn't support. Offsets count bytes from 0.
#[derive(Clone, Copy, Debug, PartialEq, Eq)]
pub enum ReaderFault {
    /// Memory ran out.
    OutOfMemory,
    /// The text at this offset isn't valid there.
    Syntax(usize),
    /// The digits at this offset, or the groups of bits in the binary form, write a number over 4,294,967,295.
    NumberTooLarge(usize),
    /// The header has more than 16,777,216 variables or outputs.
    TooLarge,
    /// In the ASCII form, the header's greatest variable `M` is less than `I + L + A`.
    TooFewVariables,
    /// In the binary form, the header's greatest variable `M` isn't `I + L + A`.
    OtherVariables,
    /// The header says that the circuit has some of these.
    LeftOut(Section),
    /// The latch with this index, counted from 0, doesn't start at 0.
    Reset(usize),
}

impl fmt::Display for Section {
    ghost use Rattle.std.specs.Prelude.{Some};
    ghost use Rattle.pg_aiger_reader.specs.FaultTexts.{section_text};

    ghost output = { λ section. Some (section_text section) };

    fn fmt<W: fmt::Write>(&self, f: &mut fmt::Formatter<W>) -> fmt::Result {
        f.write_str(match self {
            Section::BadStates => "bad-state properties",
            Section::Constraints => "invariant constraints",
            Section::Justice => "justice properties",
            Section::Fairness => "fairness constraints",
        })
    }
}

impl fmt::Display for ReaderFault {
    ghost use Rattle.std.specs.Prelude.{Some};
    ghost use Rattle.pg_aiger_reader.specs.FaultTexts.{reader_fault_text};

    ghost output = { λ fault. Some (reader_fault_text fault) };

    fn fmt<W: fmt::Write>(&self, f: &mut fmt::Formatter<W>) -> fmt::Result {
        match self {
            ReaderFault::OutOfMemory => f.write_str("out of memory"),
            ReaderFault::Syntax(offset) => write!(f, "syntax error at byte {offset}"),
            ReaderFault::NumberTooLarge(offset) => write!(f, "number too large at byte {offset}"),
            ReaderFault::TooLarge => f.write_str("circuit too large"),
            ReaderFault::TooFewVariables => f.write_str("the header's M is less than I + L + A"),
            ReaderFault::OtherVariables => f.write_str("the header's M is not I + L + A"),
            ReaderFault::LeftOut(section) => write!(
                f,
                "the circuit has {section}, which are not read"
            ),
            ReaderFault::Reset(position) => write!(f, "latch {position} does not start at 0"),
        }
    }
}

impl Error for ReaderFault {}

/// Why the inputs, or the outputs, of a circuit don't match the propositions of an automaton. A place counts from 0. The variants are
/// described for inputs; for outputs they say the same of outputs.
#[derive(Debug, Drop)]
pub enum SideFault {
    /// No input has this name.
    Missing(Name),
    /// Two inputs have this name.
    Twice(Name),
    /// The input at this place has both names.
    Shared(usize, Name, Name),
    /// The input at this place has no name.
    Nameless(usize),
    /// A symbol gives the input at this place this name, and no proposition has it.
    Extra(usize, Name),
    /// There are fewer inputs than propositions; this is the name of the first proposition without an input.
    Short(Name),
    /// There are more inputs than propositions; this is the place of the first input without a proposition.
    Long(usize),
}

/// Why the inputs and outputs of a circuit don't match the propositions of an automaton.
#[derive(Debug, Drop)]
pub enum TieFault {
    /// Memory ran out.
    OutOfMemory,
    /// No input and no output has a name.
    NoSymbols,
    /// The inputs don't match.
    Inputs(SideFault),
    /// The inputs match, but the outputs don't.
    Outputs(SideFault),
}

impl SideFault {
    /// Writes why one side doesn't match; `word` is `input` or `output`.
    fn write<W: fmt::Write>(&self, word: &str, f: &mut fmt::Formatter<W>) -> fmt::Result
        ensures { WritesOnOk W.Write.write_str_gives f.old result (side_fault_text word.now self.now) f.new }
    {
        match self {
            SideFault::Missing(name) => write!(f, "the circuit has no {word} named {name}"),
            SideFault::Twice(name) => write!(f, "two {word}s are named {name}"),
            SideFault::Shared(place, one, other) => write!(
                f,
                "{word} {place} is named {one} and {other}"
            ),
            SideFault::Nameless(place) => write!(f, "{word} {place} has no symbol"),
            SideFault::Extra(place, name) => write!(
                f,
                "{word} {place} is named {name}, but the automaton has no such {word}"
            ),
            SideFault::Short(name) => write!(f, "the circuit has no {word} for {name}"),
            SideFault::Long(place) => write!(f, "the circuit has an {word} more: {word} {place}"),
        }
    }
}

impl fmt::Display for TieFault {
    ghost use Rattle.std.specs.Prelude.{Some};
    ghost use Rattle.pg_aiger_reader.specs.FaultTexts.{tie_fault_text};

    ghost output = { λ fault. Some (tie_fault_text fault) };

    fn fmt<W: fmt::Write>(&self, f: &mut fmt::Formatter<W>) -> fmt::Result {
        match self {
            TieFault::OutOfMemory => f.write_str("out of memory"),
            TieFault::NoSymbols => {
                f.write_str("the inputs and outputs have no names; --by-place takes them in order")
            }
            TieFault::Inputs(fault) => fault.write("input", f),
            TieFault::Outputs(fault) => fault.write("output", f),
        }
    }
}

impl Error for TieFault {}

impl From<AllocError> for TieFault {
    ghost use Rattle.pg_aiger_reader.specs.declared.fault.TieFault.TheVariants as ties;

    ghost from_gives = { λ _ e. e ≡ ties.OutOfMemory };

    fn from(_e: AllocError) -> TieFault {
        TieFault::OutOfMemory
    }
}

impl<T: Drop> From<AllocFailed<T>> for TieFault {
    ghost use Rattle.pg_aiger_reader.specs.declared.fault.TieFault.TheVariants as ties;

    ghost from_gives = { λ _ e. e ≡ ties.OutOfMemory };

    fn from(_e: AllocFailed<T>) -> TieFault {
        TieFault::OutOfMemory
    }
}

impl From<AllocError> for ReaderFault {
    ghost from_gives = { λ _ e. e ≡ OutOfMemory };

    fn from(_e: AllocError) -> ReaderFault {
        ReaderFault::OutOfMemory
    }
}

impl<T: Drop> From<AllocFailed<T>> for ReaderFault {
    ghost from_gives = { λ _ e. e ≡ OutOfMemory };

    fn from(_e: AllocFailed<T>) -> ReaderFault {
        ReaderFault::OutOfMemory
    }
}

impl ReaderFault {
    /// Returns the same fault with an offset from the start of a text of `len` bytes; the offset of `self` counts the bytes from there to
    /// the end.
    pub(crate) fn at(self, len: usize) -> ReaderFault
        ensures { result ≡ turned len self }
    {
        match self {
            ReaderFault::Syntax(left) => ReaderFault::Syntax(len.saturating_sub(left)),
            ReaderFault::NumberTooLarge(left) => ReaderFault::NumberTooLarge(len.saturating_sub(
                left,
            )),
            other => other,
        }
    }
}
