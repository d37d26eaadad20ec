//! The command `verify --environment`.

ghost use Rattle.std.specs.Prelude.{◌≡◌, IfOk, IfErr, OnOk};
ghost use Rattle.std.specs.Io.KnownBytes.{Appends};
ghost use Rattle.pg_cli_command.specs.Refuting.{outcome_text, IsRefuted, RefusesRefute};
ghost use Rattle.pg_cli_command.specs.Mirrors.Parting.{parting_of};
ghost use Rattle.pg_cli_command.specs.Mirrors.Working.{ShowsWhat, Fails};

use crate::fault::CliFault;
use crate::parts::Texts;
use crate::printing::CommandAnswer;
use crate::solver::Solver;
use crate::verify::{verdict_on, write_letters};
use pg_aiger_netlist::Netlist;
use pg_aiger_reader::{read_circuit, tie};
use pg_hoa::read_automaton;
use pg_verify_environment::{EnvironmentVerdict, counterpart, outcome_of};
use std::alloc::Global;
use std::io::{self, Write};

/// The outcome for a circuit that plays the environment, and the circuit's inputs: in the circuit's own order, and in the order of the
/// automaton's propositions.
#[derive(Drop)]
pub(crate) struct Refuted {
    given: Vec<u32>,
    tied: Vec<u32>,
    outcome: EnvironmentVerdict,
}

/// Writes an outcome.
fn write_outcome<W: Write>(
    writer: &mut W,
    given: &[u32],
    tied: &[u32],
    outcome: &EnvironmentVerdict,
) -> io::Result<()>
    ensures { OnOk result (Appends (W.contents writer.old) (W.contents writer.new) (outcome_text given.now tied.now outcome.now)) }
{
    match outcome {
        EnvironmentVerdict::Refutes => writer.write_all(b"REFUTES\n"),
        EnvironmentVerdict::Answered(stem, round) => {
            writer.write_all(b"FAILS\n")?;
            write_letters(writer, given, tied, stem)?;
            writer.write_all(b"loop\n")?;
            write_letters(writer, given, tied, round)
        }
    }
}

impl CommandAnswer for Refuted {
    ghost is_whole = { λ _. Unit {0} };

    ghost shows = { λ a output. output ≡ outcome_text a.given.items a.tied.items a.outcome };

    fn write<W: Write>(self, writer: &mut W) -> Option<()> {
        write_outcome(writer, &self.given, &self.tied, &self.outcome).ok()
    }
}

/// Returns the outcome for the circuit that the second text spells, which plays the environment against the automaton of the first text.
pub(crate) fn refute<F: Solver>(
    alloc: Global,
    texts: Texts,
    by_place: bool,
    solver: &mut F,
) -> Result<Refuted, CliFault>
    ensures whole { IfOk result ⟦<Refuted as CommandAnswer>⟧.is_whole }
    ensures answer { IfOk result (ShowsWhat (IsRefuted (parting_of texts) by_place) ⟦<Refuted as CommandAnswer>⟧.shows) }
    ensures refused { IfErr result (Fails (RefusesRefute (F.finds solver.old) (parting_of texts) by_place)) }
{
    match texts.both() {
        None => Err(CliFault::NoSeparator),
        Some((first, second)) => {
            let automaton = read_automaton(alloc, first)?;
            // called only for what its contract says about the automaton
            let _states = automaton.states();
            let twin = counterpart(alloc, &automaton)?;
            let parts = read_circuit(alloc, second)?;
            let given = Vec::from_slice(alloc, &parts.inputs)?;
            let parts = tie(alloc, &twin, parts, by_place)?;
            let tied = Vec::from_slice(alloc, &parts.inputs)?;
            let netlist = Netlist::new(
                alloc,
                parts.greatest,
                parts.inputs,
                parts.latches,
                parts.outputs,
                parts.gates,
            )?;
            if let Some(place) = netlist.hearing_output(alloc)? {
                return Err(CliFault::Hearing(place));
            }
            let verdict = verdict_on(alloc, &twin, &netlist, solver)?;
            Ok(Refuted {
                given,
                tied,
                outcome: outcome_of(verdict),
            })
        }
    }
}
