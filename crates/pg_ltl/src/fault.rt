//! Why a formula's text is refused.

ghost use Rattle.std.specs.Prelude.{◌≡◌};

use std::alloc::{AllocError, AllocFailed};
use std::error::Error;
use std::fmt;

/// Why the text of a formula is refused. Offsets count bytes from 0 and point at the first byte of the offending word, or equal the
/// text's length if the fault is at its end.
#[derive(Clone, Copy, Debug, PartialEq, Eq)]
pub enum FormulaFault {
    /// An allocation failed.
    OutOfMemory,
    /// No word begins at this offset, a quoted name that begins there doesn't end, or another word is expected there.
    Syntax(usize),
    /// The text has more than 65,535 names.
    TooManyNames,
    /// The text has more than 4,096 operators.
    TooManyOperators,
}

impl fmt::Display for FormulaFault {
    ghost use Rattle.std.specs.Prelude.{Some};
    ghost use Rattle.pg_ltl.specs.FaultTexts.{fault_text};

    ghost output = { λ fault. Some (fault_text fault) };

    fn fmt<W: fmt::Write>(&self, f: &mut fmt::Formatter<W>) -> fmt::Result {
        match self {
            FormulaFault::OutOfMemory => f.write_str("out of memory"),
            FormulaFault::Syntax(offset) => write!(f, "syntax error at byte {offset}"),
            FormulaFault::TooManyNames => f.write_str("more than 65535 propositions"),
            FormulaFault::TooManyOperators => f.write_str("more than 4096 operators"),
        }
    }
}

impl Error for FormulaFault {}

impl From<AllocError> for FormulaFault {
    ghost use Rattle.pg_ltl.specs.declared.fault.FormulaFault.TheVariants as faults;

    ghost from_gives = { λ _ e. e ≡ faults.OutOfMemory };

    fn from(_e: AllocError) -> FormulaFault {
        FormulaFault::OutOfMemory
    }
}

impl<T: Drop> From<AllocFailed<T>> for FormulaFault {
    ghost use Rattle.pg_ltl.specs.declared.fault.FormulaFault.TheVariants as faults;

    ghost from_gives = { λ _ e. e ≡ faults.OutOfMemory };

    fn from(_e: AllocFailed<T>) -> FormulaFault {
        FormulaFault::OutOfMemory
    }
}
