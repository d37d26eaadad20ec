//! Why the program gives no answer.

ghost use Rattle.std.specs.Prelude.{◌≡◌, OnOk};
ghost use Rattle.pg_cli_request.specs.Faults.{fault_status, end_status, outcome_status, IsTold};

use pg_cli::{CliFault, exit_code};
use pg_cli_statistics::{FaultNotes, Kept};
use pg_cli_words::Outcome;
use std::alloc::{AllocError, Global};
use std::io::{self, Write};

/// Why the program gives no answer.
#[derive(Drop)]
pub enum Fault<'a> {
    /// The file of this name can't be opened, or is a folder.
    Open(&'a str, io::Error),
    /// The file of this name can't be read to its end.
    Read(&'a str),
    /// `--outs` names the outputs, and so does a header of the automaton.
    Controlled,
    /// `--outs` has this name, and no proposition has it.
    NoProposition(&'a str),
    /// A fault that doesn't depend on the names of the files.
    Cli(CliFault),
}

impl<'a> From<CliFault> for Fault<'a> {
    ghost use Rattle.std.specs.Prelude.{◌≡◌};
    ghost use Rattle.pg_cli_request.specs.declared.fault.Fault.TheVariants as faults;

    ghost from_gives = { λ fault e. e ≡ faults.Cli fault };

    fn from(fault: CliFault) -> Fault<'a> {
        Fault::Cli(fault)
    }
}

impl<'a> From<AllocError> for Fault<'a> {
    ghost use Rattle.std.specs.Prelude.{◌≡◌};
    ghost use Rattle.pg_cli_request.specs.declared.fault.Fault.TheVariants as faults;
    ghost use Rattle.pg_cli_command.specs.declared.fault.CliFault.TheVariants as cli;

    ghost from_gives = { λ _ e. e ≡ faults.Cli cli.OutOfMemory };

    fn from(_: AllocError) -> Fault<'a> {
        Fault::Cli(CliFault::OutOfMemory)
    }
}

/// Returns the exit status of the program for a fault: 3 if the fault is `Undecided`, and otherwise 1.
pub fn status_of(fault: &Fault) -> u8
    ensures { result ≡ fault_status fault.now }
{
    match fault {
        Fault::Cli(fault) => exit_code(fault),
        _ => 1,
    }
}

/// Writes the fault's line. It allocates no memory, and fails only if the writer does.
pub fn write_fault<E: Write>(fault: &Fault, errors: &mut E) -> io::Result<()>
    ensures { OnOk result (IsTold fault.now (E.contents errors.old) (E.contents errors.new)) }
{
    match fault {
        Fault::Open(name, why) => writeln!(errors, "parsolve: cannot open {name}: {why}"),
        Fault::Read(name) => writeln!(errors, "parsolve: cannot read {name}"),
        Fault::Controlled => writeln!(
            errors,
            "parsolve: --outs is given, and so is a header controllable-AP"
        ),
        Fault::NoProposition(name) => writeln!(errors, "parsolve: no proposition is named {name}"),
        Fault::Cli(fault) => pg_cli::write_fault(fault, errors),
    }
}

/// Writes the fault's line, if it can be written, and returns the exit status for the fault.
pub fn tell<E: Write>(errors: &mut E, fault: &Fault) -> u8
    ensures { result ≡ fault_status fault.now }
{
    let _ = write_fault(fault, errors);
    status_of(fault)
}

/// Prints notes that may help with a fault, by what was kept of the input.
fn note<E: Write>(alloc: Global, errors: &mut E, fault: &Fault, kept: &Kept) {
    match fault {
        Fault::Cli(fault) => FaultNotes::of(alloc, kept, fault).tell(errors),
        Fault::Open(name, _) => FaultNotes::of_file(alloc, name).tell(errors),
        Fault::NoProposition(name) => FaultNotes::of_name(alloc, kept, name).tell(errors),
        _ => (),
    }
}

/// Ends a command line: returns 0 if an answer was written, and otherwise the status of the fault, whose line goes to the error stream, with
/// notes after it.
pub fn end<E: Write>(alloc: Global, errors: &mut E, ended: Result<(), Fault>, kept: &Kept) -> u8
    ensures { result ≡ end_status ended.entry }
{
    match ended {
        Ok(()) => 0,
        Err(fault) => {
            let status = tell(errors, &fault);
            note(alloc, errors, &fault, kept);
            status
        }
    }
}

/// Returns the exit status for words that ask for no answer: 0 if the help or the version that they ask for was printed, 2 if they aren't a
/// command line, and otherwise 1. With 1 it writes the line of the fault.
pub fn tell_outcome<E: Write>(errors: &mut E, outcome: Outcome) -> u8
    ensures { result ≡ outcome_status outcome }
{
    match outcome {
        Outcome::Asked => 0,
        Outcome::Refused => 2,
        Outcome::Unwritten => tell(errors, &Fault::Cli(CliFault::Write)),
        Outcome::OutOfMemory => tell(errors, &Fault::Cli(CliFault::OutOfMemory)),
    }
}
