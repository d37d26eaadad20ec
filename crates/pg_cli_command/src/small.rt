//! The command `synth --small`.

ghost use Rattle.std.specs.Prelude.{◌≡◌, true, Some, IfOk, IfErr, IfSome};
ghost use Rattle.pg_cli_command.specs.Synthesising.{RefusesSynth};
ghost use Rattle.pg_cli_command.specs.Small.{IsSynthesisedSmall};
ghost use Rattle.pg_cli_command.specs.Mirrors.Small.{IsAcceptedBy, IsCorrectFor, IsShapedAs};
ghost use Rattle.pg_cli_command.specs.Mirrors.Synthesised.{Fits};
ghost use Rattle.pg_cli_command.specs.Mirrors.Working.{ShowsWhat, Fails};

use crate::fault::CliFault;
use crate::printing::CommandAnswer;
use crate::solver::{ProposedCircuit, Solver};
use crate::synth::{Synthesised, synth};
use crate::verify::verdict_on;
use pg_aiger::Circuit;
use pg_aiger_netlist::{Netlist, NetlistFault};
use pg_hoa::Automaton;
use pg_verify::CircuitVerdict;
use std::alloc::Global;

/// Whether the automaton accepts each run of the circuit. Returns false if that can't be determined. Fails only if memory runs out.
fn is_accepted<F: Solver>(
    alloc: Global,
    automaton: &Automaton,
    circuit: &Circuit,
    solver: &mut F,
) -> Result<bool, CliFault>
    requires { Fits automaton.now (Some circuit.now) }
    ensures accepted { IfOk result (λ yes. yes ≡ true → IsCorrectFor automaton.now circuit.now) }
    ensures refused { IfErr result (λ fault. fault ≡ CliFault.OutOfMemory) }
{
    let netlist = match Netlist::of(alloc, circuit) {
        Ok(netlist) => netlist,
        Err(NetlistFault::OutOfMemory) => return Err(CliFault::OutOfMemory),
        Err(_) => return Ok(false),
    };
    match verdict_on(alloc, automaton, &netlist, solver) {
        Ok(CircuitVerdict::Accepted) => Ok(true),
        Ok(_) => Ok(false),
        Err(CliFault::OutOfMemory) => Err(CliFault::OutOfMemory),
        Err(_) => Ok(false),
    }
}

/// Returns the number of latches and gates of a circuit.
fn size_of(circuit: &Circuit) -> usize {
    let (_, nexts, _, gates) = circuit.parts();
    nexts.len() + gates.len()
}

/// Returns the proposed circuit if it has as many inputs and outputs as the plain one and is smaller.
fn smaller_one(plain: &Circuit, proposal: ProposedCircuit) -> Option<Circuit>
    ensures { IfSome result (λ circuit. IsShapedAs plain.now circuit) }
{
    let (inputs, _, outputs, _) = plain.parts();
    let ProposedCircuit {
        nexts,
        outputs: literals,
        gates,
    } = proposal;
    if literals.len() != outputs.len() {
        return None;
    }
    let circuit = Circuit::of_parts(inputs, nexts, literals, gates)?;
    if size_of(&circuit) < size_of(plain) {
        Some(circuit)
    } else {
        None
    }
}

/// Returns the first proposed circuit that is smaller than the plain one and whose every run the automaton accepts, or None if there is
/// none. Fails only if memory runs out.
fn first_accepted<F: Solver>(
    alloc: Global,
    automaton: &Automaton,
    plain: &Circuit,
    solver: &mut F,
) -> Result<Option<Circuit>, CliFault>
    requires { Fits automaton.now (Some plain.now) }
    ensures accepted { IfOk result (λ found. IfSome found (IsAcceptedBy automaton.now)) }
    ensures refused { IfErr result (λ fault. fault ≡ CliFault.OutOfMemory) }
{
    for proposal in solver.propose(alloc, automaton)? {
        let Some(circuit) = smaller_one(plain, proposal) else {
            continue;
        };
        let is_right = is_accepted(alloc, automaton, &circuit, solver)?;
        if is_right {
            return Ok(Some(circuit));
        }
    }
    Ok(None)
}

/// Returns the answer of `synth`. If a proposed circuit is smaller than the plain one and the automaton accepts its every run, the first
/// such circuit replaces the plain one. Fails as `synth` does.
pub(crate) fn synth_small<F: Solver>(
    alloc: Global,
    text: Vec<u8>,
    solver: &mut F,
) -> Result<Synthesised, CliFault>
    ensures whole { IfOk result ⟦<Synthesised as CommandAnswer>⟧.is_whole }
    ensures answer { IfOk result
        (ShowsWhat (IsSynthesisedSmall (F.finds solver.old) text.items) ⟦<Synthesised as CommandAnswer>⟧.shows) }
    ensures refused { IfErr result (Fails (RefusesSynth (F.finds solver.old) text.items)) }
{
    let Synthesised { automaton, circuit } = synth(alloc, text, solver)?;
    let Some(plain) = circuit else {
        return Ok(Synthesised {
            automaton,
            circuit: None,
        });
    };
    match first_accepted(alloc, &automaton, &plain, solver)? {
        Some(small) => Ok(Synthesised {
            automaton,
            circuit: Some(small),
        }),
        None => Ok(Synthesised {
            automaton,
            circuit: Some(plain),
        }),
    }
}
