//! The verdict on a circuit and a formula.

ghost use Rattle.std.specs.Prelude.{IfOk};
ghost use Rattle.pg_ltl.specs.Mirrors.Views.{written};
ghost use Rattle.pg_satisfies.specs.Verdicts.{asked, SaysOf};

use crate::cone::Definitions;
use crate::fault::SatisfiesFault;
use crate::refuting::{AttemptOutcome, Question, refute};
use pg_aiger_netlist::Netlist;
use pg_ltl::{Formula, normal_form};
use pg_satisfies_promises::promises_of;
use std::alloc::Global;

/// Whether every endless run of a circuit satisfies a formula, and if not, inputs on which the run doesn't.
#[derive(Debug, Drop)]
pub enum SatisfactionVerdict {
    /// Every run satisfies the formula.
    Satisfied,
    /// The run on these letters of inputs doesn't. A letter has a value for each input, in the circuit's order; after the last letter
    /// those from the place on come again and again.
    Violated(Vec<Vec<bool>>, usize),
}

/// Decides whether every endless run of a circuit satisfies a formula if `positive`, or its negation if not. `literals` has the literal of
/// each proposition; a proposition past its end is false.
///
/// The formula is split into promises, and one after the other is judged on the part of the circuit that it speaks of. A search proposes the
/// evidence, and a check decides. Fails with `TooLarge` if a search reaches a limit, with `Undecided` if a proposal doesn't pass the check,
/// and with `OutOfMemory`.
pub fn satisfies(
    alloc: Global,
    netlist: &Netlist,
    literals: &[u32],
    formula: &Formula,
    positive: bool,
) -> Result<SatisfactionVerdict, SatisfiesFault>
    ensures { IfOk result (SaysOf netlist.now literals.now (asked positive (written formula.now))) }
{
    let definitions = Definitions::of(alloc, netlist)?;
    let promises = promises_of(alloc, normal_form(alloc, formula, !positive)?)?;
    let question = Question {
        netlist,
        definitions: &definitions,
        literals,
        nodes: &promises.nodes,
    };
    for tries in &promises.tries {
        match refute(alloc, question, tries)? {
            AttemptOutcome::Refuted => (),
            AttemptOutcome::Violated(letters, back) => {
                return Ok(SatisfactionVerdict::Violated(letters, back));
            }
            AttemptOutcome::GivenUp => return Err(SatisfiesFault::TooLarge),
            AttemptOutcome::Unshown => return Err(SatisfiesFault::Undecided),
        }
    }
    Ok(SatisfactionVerdict::Satisfied)
}
