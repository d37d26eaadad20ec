//! From two texts to a verdict.

ghost use Rattle.std.specs.Prelude.{IfOk, IfErr};
ghost use Rattle.pg_satisfies_texts.specs.Judging.{IsJudged, Refuses};

use crate::fault::SatisfyFault;
use crate::names::literals_of;
use pg_aiger_netlist::Netlist;
use pg_aiger_reader::read_circuit;
use pg_ltl::read_formula;
use pg_satisfies::{SatisfactionVerdict, satisfies};
use std::alloc::Global;

/// Decides whether every run of the circuit that the second text spells satisfies the formula that the first text spells. If the circuit
/// plays the environment, it decides whether every run violates the formula. The names of the formula mean the inputs and outputs that the
/// circuit's symbols give these names, or, where no input and no output has the name, the latches.
///
/// Returns the first of these faults: `Formula`, `Circuit`, `Names`, `Netlist`, `Satisfies`. Memory can run out at any point.
pub fn judge(
    alloc: Global,
    first: &[u8],
    second: &[u8],
    environment: bool,
) -> Result<SatisfactionVerdict, SatisfyFault>
    ensures judged { IfOk result (IsJudged first.now second.now environment) }
    ensures refused { IfErr result (Refuses first.now second.now) }
{
    let (names, formula) = read_formula(alloc, first)?;
    let parts = read_circuit(alloc, second)?;
    let found = literals_of(alloc, &parts, &names)?;
    let literals = found?;
    let netlist = Netlist::new(
        alloc,
        parts.greatest,
        parts.inputs,
        parts.latches,
        parts.outputs,
        parts.gates,
    )?;
    Ok(satisfies(alloc, &netlist, &literals, &formula, !environment)?)
}
