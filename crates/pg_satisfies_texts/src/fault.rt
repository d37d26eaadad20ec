//! Why there is no verdict on two texts.

ghost use Rattle.std.specs.Prelude.{◌≡◌, map};
ghost use Rattle.std.specs.List.{flat_map};
ghost use Rattle.std.specs.Fmt.{WritesOnOk};
ghost use Rattle.pg_satisfies_texts.specs.FaultTexts.{after_comma, known_text, name_bytes, others_text};

use pg_aiger_netlist::NetlistFault;
use pg_aiger_reader::{Name, ReaderFault};
use pg_ltl::FormulaFault;
use pg_satisfies::SatisfiesFault;
use std::alloc::AllocError;
use std::fmt;
use thiserror::Error;

/// The most names of a circuit that the text of a fault shows.
const MOST_SHOWN: usize = 64;

/// The most names of a circuit that a fault has. The last of them only tells that there are more than the text shows.
pub(crate) const MOST_KNOWN: usize = 65;

/// Why a name of a formula means no signal of a circuit.
#[derive(Debug, Drop)]
pub enum NameFault {
    /// No input, output or latch has this name. The list has the names that the circuit's first 65 symbols give.
    Missing(Name, Vec<Name>),
    /// Two inputs or outputs have this name; or no input and no output has it, but two latches do.
    Ambiguous(Name),
}

/// Writes the names, each after a comma.
fn write_more<W: fmt::Write>(names: &[Name], f: &mut fmt::Formatter<W>) -> fmt::Result
    ensures { WritesOnOk W.Write.write_str_gives f.old result (flat_map after_comma (map name_bytes names.now)) f.new }
{
    for name in names {
        write!(f, ", {name}")?;
    }
    Ok(())
}

/// Writes the names, each after a comma. It writes at most 63, and `..` for the others.
fn write_others<W: fmt::Write>(names: &[Name], f: &mut fmt::Formatter<W>) -> fmt::Result
    ensures { WritesOnOk W.Write.write_str_gives f.old result (others_text (map name_bytes names.now)) f.new }
{
    if names.len() < MOST_SHOWN {
        return write_more(names, f);
    }
    write_more(&names[..MOST_SHOWN - 1], f)?;
    f.write_str(", ..")
}

/// Writes the names that a circuit has.
fn write_known<W: fmt::Write>(names: &[Name], f: &mut fmt::Formatter<W>) -> fmt::Result
    ensures { WritesOnOk W.Write.write_str_gives f.old result (known_text (map name_bytes names.now)) f.new }
{
    match names {
        [] => f.write_str(", since its inputs, outputs and latches have no names"),
        [first, others @ ..] => {
            write!(f, "; it has {first}")?;
            write_others(others, f)
        }
    }
}

impl fmt::Display for NameFault {
    ghost use Rattle.std.specs.Prelude.{Some};
    ghost use Rattle.pg_satisfies_texts.specs.FaultTexts.{name_fault_text};

    ghost output = { λ fault. Some (name_fault_text fault) };

    fn fmt<W: fmt::Write>(&self, f: &mut fmt::Formatter<W>) -> fmt::Result {
        match self {
            NameFault::Missing(name, known) => {
                write!(f, "the circuit has no input, output or latch named {name}")?;
                write_known(known, f)
            }
            NameFault::Ambiguous(name) => write!(f, "two signals of the circuit are named {name}"),
        }
    }
}

impl std::error::Error for NameFault {}

/// Why there is no verdict on two texts. If memory runs out, the fault inside says so.
#[derive(Debug, Drop, Error)]
pub enum SatisfyFault {
    /// The first text spells no formula, or memory ran out while it was read.
    #[error("{0}")]
    Formula(FormulaFault),
    /// The second text spells no circuit, or memory ran out while it was read.
    #[error("{0}")]
    Circuit(ReaderFault),
    /// A name of the formula means no signal of the circuit.
    #[error("{0}")]
    Names(NameFault),
    /// The lines of the circuit contradict one another, its gates have a cycle, or memory ran out.
    #[error("{0}")]
    Netlist(NetlistFault),
    /// There is no verdict on the circuit and the formula, or memory ran out.
    #[error("{0}")]
    Satisfies(SatisfiesFault),
}

impl From<FormulaFault> for SatisfyFault {
    ghost use Rattle.pg_satisfies_texts.specs.declared.fault.SatisfyFault.TheVariants as faults;

    ghost from_gives = { λ fault e. e ≡ faults.Formula fault };

    fn from(fault: FormulaFault) -> SatisfyFault {
        SatisfyFault::Formula(fault)
    }
}

impl From<ReaderFault> for SatisfyFault {
    ghost use Rattle.pg_satisfies_texts.specs.declared.fault.SatisfyFault.TheVariants as faults;

    ghost from_gives = { λ fault e. e ≡ faults.Circuit fault };

    fn from(fault: ReaderFault) -> SatisfyFault {
        SatisfyFault::Circuit(fault)
    }
}

impl From<NameFault> for SatisfyFault {
    ghost use Rattle.pg_satisfies_texts.specs.declared.fault.SatisfyFault.TheVariants as faults;

    ghost from_gives = { λ fault e. e ≡ faults.Names fault };

    fn from(fault: NameFault) -> SatisfyFault {
        SatisfyFault::Names(fault)
    }
}

impl From<NetlistFault> for SatisfyFault {
    ghost use Rattle.pg_satisfies_texts.specs.declared.fault.SatisfyFault.TheVariants as faults;

    ghost from_gives = { λ fault e. e ≡ faults.Netlist fault };

    fn from(fault: NetlistFault) -> SatisfyFault {
        SatisfyFault::Netlist(fault)
    }
}

impl From<SatisfiesFault> for SatisfyFault {
    ghost use Rattle.pg_satisfies_texts.specs.declared.fault.SatisfyFault.TheVariants as faults;

    ghost from_gives = { λ fault e. e ≡ faults.Satisfies fault };

    fn from(fault: SatisfiesFault) -> SatisfyFault {
        SatisfyFault::Satisfies(fault)
    }
}

impl From<AllocError> for SatisfyFault {
    ghost use Rattle.pg_satisfies.specs.declared.fault.SatisfiesFault.TheVariants as satisfies;
    ghost use Rattle.pg_satisfies_texts.specs.declared.fault.SatisfyFault.TheVariants as faults;

    ghost from_gives = { λ _ e. e ≡ faults.Satisfies satisfies.OutOfMemory };

    fn from(_e: AllocError) -> SatisfyFault {
        SatisfyFault::Satisfies(SatisfiesFault::OutOfMemory)
    }
}
