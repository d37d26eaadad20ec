//! The command `synth`.

ghost use Rattle.std.specs.Prelude.{◌≡◌, Some, IfOk, IfErr, OnOk};
ghost use Rattle.std.specs.Io.KnownBytes.{Appends};
ghost use Rattle.pg_hoa_automaton.specs.Automata.{IsAutomaton};
ghost use Rattle.pg_hoa.specs.AutomatonText.{Spelt};
ghost use Rattle.pg_cli_command.specs.Synthesising.{IsSynthesised, RefusesSynth};
ghost use Rattle.pg_cli_command.specs.Mirrors.Synthesised.{Fits, outcome_text};
ghost use Rattle.pg_cli_command.specs.Mirrors.Working.{ShowsWhat, Fails};

use crate::fault::CliFault;
use crate::printing::CommandAnswer;
use crate::solution::solution_of;
use crate::solver::Solver;
use pg_aiger::{AigerFault, Circuit, circuit_of, write_circuit};
use pg_hoa::{Automaton, read_automaton};
use pg_synth::{game_of, mealy_of};
use std::alloc::Global;
use std::io::Write;

/// Writes that there is a controller, and its circuit.
pub(crate) fn write_realized<W: Write>(
    circuit: &Circuit,
    automaton: &Automaton,
    writer: &mut W,
) -> Result<(), AigerFault>
    requires { Fits automaton.now (Some circuit.now) }
    ensures { OnOk result (Appends (W.contents writer.old) (W.contents writer.new)
        (outcome_text automaton.now (Some circuit.now))) }
{
    writer.write_all(b"REALIZABLE\n")?;
    write_circuit(circuit, automaton, writer)
}

/// An automaton and, if there is one, a circuit under which each of the automaton's runs is accepted.
#[derive(Drop)]
pub(crate) struct Synthesised {
    pub automaton: Automaton,
    pub circuit: Option<Circuit>,
}

impl CommandAnswer for Synthesised {
    ghost is_whole = { λ a. Fits a.automaton a.circuit };

    ghost shows = { λ a output. output ≡ outcome_text a.automaton a.circuit };

    fn write<W: Write>(self, writer: &mut W) -> Option<()> {
        let Synthesised { automaton, circuit } = self;
        match circuit {
            Some(circuit) => write_realized(&circuit, &automaton, writer).ok(),
            None => writer.write_all(b"UNREALIZABLE\n").ok(),
        }
    }
}

/// Decides whether the automaton that a text spells has a controller under which each run is accepted, and returns the circuit of one if it
/// has. Frees the text before it makes the game, and the game before it makes the circuit.
pub(crate) fn synth<F: Solver>(
    alloc: Global,
    text: Vec<u8>,
    solver: &mut F,
) -> Result<Synthesised, CliFault>
    ensures whole { IfOk result ⟦<Synthesised as CommandAnswer>⟧.is_whole }
    ensures answer { IfOk result
        (ShowsWhat (IsSynthesised (F.finds solver.old) text.items) ⟦<Synthesised as CommandAnswer>⟧.shows) }
    ensures spelt { IfOk result (λ found. Spelt text.items found.automaton) }
    ensures automaton { IfOk result (λ found. IsAutomaton found.automaton) }
    ensures refused { IfErr result (Fails (RefusesSynth (F.finds solver.old) text.items)) }
{
    let automaton = read_automaton(alloc, &text)?;
    drop(text);
    // called only for what its contract says about the automaton
    let _states = automaton.states();
    let made = game_of(alloc, &automaton)?;
    let solution = solution_of(alloc, &made.game, solver)?;
    let Some(machine) = mealy_of(alloc, &automaton, &made, &solution)? else {
        return Ok(Synthesised {
            automaton,
            circuit: None,
        });
    };
    drop(made);
    drop(solution);
    let circuit = circuit_of(alloc, &machine)?;
    Ok(Synthesised {
        automaton,
        circuit: Some(circuit),
    })
}
