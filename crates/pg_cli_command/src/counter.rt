//! The command `synth --counter`.

ghost use Rattle.std.specs.Prelude.{◌≡◌, true, Some, IfOk, IfErr, IfSome, OnOk};
ghost use Rattle.std.specs.Io.KnownBytes.{Appends};
ghost use Rattle.pg_hoa_automaton.specs.Automata.{IsAutomaton};
ghost use Rattle.pg_verify_environment.specs.Counterparts.{IsCounterpart};
ghost use Rattle.pg_cli_command.specs.Small.{IsShaped};
ghost use Rattle.pg_cli_command.specs.Counter.{IsSynthesisedCounter, RefusesCounter};
ghost use Rattle.pg_cli_command.specs.Mirrors.Counter.{IsRefutedBy, IsCounterTo, countered_text};
ghost use Rattle.pg_cli_command.specs.Mirrors.Synthesised.{Fits};
ghost use Rattle.pg_cli_command.specs.Mirrors.Working.{ShowsWhat, Fails};

use crate::fault::CliFault;
use crate::printing::CommandAnswer;
use crate::solver::{ProposedCircuit, Solver};
use crate::synth::{Synthesised, synth, write_realized};
use crate::verify::verdict_on;
use pg_aiger::{AigerFault, Circuit, write_circuit};
use pg_aiger_netlist::{Netlist, NetlistFault};
use pg_hoa::Automaton;
use pg_synth::count_controlled;
use pg_verify::VerifyFault;
use pg_verify_environment::{EnvironmentVerdict, counterpart, outcome_of};
use std::alloc::Global;
use std::io::Write;

/// A circuit that plays the controller if `is_realized` is set, and otherwise the environment, and the automaton whose propositions the
/// circuit has.
#[derive(Drop)]
pub(crate) struct Countered {
    pub is_realized: bool,
    pub automaton: Automaton,
    pub circuit: Circuit,
}

/// Writes whether there is a controller, and then the circuit.
fn write_countered<W: Write>(
    is_realized: bool,
    circuit: &Circuit,
    automaton: &Automaton,
    writer: &mut W,
) -> Result<(), AigerFault>
    requires { Fits automaton.now (Some circuit.now) }
    ensures { OnOk result (Appends (W.contents writer.old) (W.contents writer.new)
        (countered_text is_realized automaton.now circuit.now)) }
{
    if is_realized {
        return write_realized(circuit, automaton, writer);
    }
    writer.write_all(b"UNREALIZABLE\n")?;
    write_circuit(circuit, automaton, writer)
}

impl CommandAnswer for Countered {
    ghost is_whole = { λ a. Fits a.automaton (Some a.circuit) };

    ghost shows = { λ a output. output ≡ countered_text a.is_realized a.automaton a.circuit };

    fn write<W: Write>(self, writer: &mut W) -> Option<()> {
        let Countered {
            is_realized,
            automaton,
            circuit,
        } = self;
        write_countered(is_realized, &circuit, &automaton, writer).ok()
    }
}

/// Returns the proposed circuit, if it is one and has the propositions of the automaton.
fn circuit_for(automaton: &Automaton, proposal: ProposedCircuit) -> Option<Circuit>
    requires { IsAutomaton automaton.now }
    ensures { IfSome result (IsShaped automaton.now) }
{
    let ProposedCircuit {
        nexts,
        outputs,
        gates,
    } = proposal;
    let controlled = count_controlled(automaton);
    if outputs.len() != controlled as usize {
        return None;
    }
    let inputs = automaton.propositions() - controlled;
    let circuit = Circuit::of_parts(inputs, nexts, outputs, gates)?;
    Some(circuit)
}

/// Whether no output of the circuit depends on an input of the same step and the automaton accepts none of the circuit's runs. Returns
/// false if that can't be determined. Fails only if memory runs out.
fn refutes<F: Solver>(
    alloc: Global,
    automaton: &Automaton,
    twin: &Automaton,
    circuit: &Circuit,
    solver: &mut F,
) -> Result<bool, CliFault>
    requires automaton { IsAutomaton automaton.now }
    requires counterpart { IsCounterpart automaton.now twin.now }
    requires shaped { IsShaped twin.now circuit.now }
    ensures refutes { IfOk result (λ yes. yes ≡ true → IsRefutedBy automaton.now circuit.now) }
    ensures refused { IfErr result (λ fault. fault ≡ CliFault.OutOfMemory) }
{
    let netlist = match Netlist::of(alloc, circuit) {
        Ok(netlist) => netlist,
        Err(NetlistFault::OutOfMemory) => return Err(CliFault::OutOfMemory),
        Err(_) => return Ok(false),
    };
    // called only for what its contract says about the circuit
    let _latches = netlist.latches();
    if netlist.hearing_output(alloc)?.is_some() {
        return Ok(false);
    }
    match verdict_on(alloc, twin, &netlist, solver) {
        Ok(verdict) => match outcome_of(verdict) {
            EnvironmentVerdict::Refutes => Ok(true),
            EnvironmentVerdict::Answered(..) => Ok(false),
        },
        Err(CliFault::OutOfMemory) => Err(CliFault::OutOfMemory),
        Err(_) => Ok(false),
    }
}

/// Returns the first proposed circuit that has the propositions of the automaton's counterpart and refutes the automaton, or None if there
/// is none. Fails only if memory runs out.
fn first_refuting<F: Solver>(
    alloc: Global,
    automaton: &Automaton,
    twin: &Automaton,
    solver: &mut F,
) -> Result<Option<Circuit>, CliFault>
    requires automaton { IsAutomaton automaton.now }
    requires counterpart { IsCounterpart automaton.now twin.now }
    ensures refutes { IfOk result (λ found. IfSome found (IsCounterTo automaton.now twin.now)) }
    ensures refused { IfErr result (λ fault. fault ≡ CliFault.OutOfMemory) }
{
    for proposal in solver.propose_environment(alloc, twin)? {
        let Some(circuit) = circuit_for(twin, proposal) else {
            continue;
        };
        let is_right = refutes(alloc, automaton, twin, &circuit, solver)?;
        if is_right {
            return Ok(Some(circuit));
        }
    }
    Ok(None)
}

/// Returns the answer of `synth` if there is a controller, and otherwise the first proposed circuit that refutes the automaton. Fails as
/// `synth` does, and with `NoCounter` if there is no controller and no such circuit was found.
pub(crate) fn synth_counter<F: Solver>(
    alloc: Global,
    text: Vec<u8>,
    solver: &mut F,
) -> Result<Countered, CliFault>
    ensures whole { IfOk result ⟦<Countered as CommandAnswer>⟧.is_whole }
    ensures answer { IfOk result
        (ShowsWhat (IsSynthesisedCounter (F.finds solver.old) text.items) ⟦<Countered as CommandAnswer>⟧.shows) }
    ensures refused { IfErr result (Fails (RefusesCounter (F.finds solver.old) text.items)) }
{
    let Synthesised { automaton, circuit } = synth(alloc, text, solver)?;
    if let Some(circuit) = circuit {
        return Ok(Countered {
            is_realized: true,
            automaton,
            circuit,
        });
    }
    let twin = match counterpart(alloc, &automaton) {
        Ok(twin) => twin,
        Err(VerifyFault::OutOfMemory) => return Err(CliFault::OutOfMemory),
        Err(VerifyFault::TooLarge) => return Err(CliFault::NoCounter),
    };
    match first_refuting(alloc, &automaton, &twin, solver)? {
        Some(circuit) => Ok(Countered {
            is_realized: false,
            automaton: twin,
            circuit,
        }),
        None => Err(CliFault::NoCounter),
    }
}
