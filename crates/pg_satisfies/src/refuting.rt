//! Attempts at a promise: the search proposes, and the check decides.

ghost use Rattle.std.specs.Prelude.{◌≡◌, IfOk};
ghost use Rattle.std.specs.Bool.{OnTrue};
ghost use Rattle.pg_aiger.specs.Circuits.{Circuit};
ghost use Rattle.pg_ltl.specs.Mirrors.Nodes.{normal_in, AreNormalNodes};
ghost use Rattle.pg_satisfies_check.specs.Satisfaction.{IsPartOf, IsUnsatisfied};
ghost use Rattle.pg_satisfies_check.specs.Mirrors.Steps.{circuit_of};
ghost use Rattle.pg_satisfies.specs.Mirrors.Attempts.{Shows, ShowsAll};

use crate::cone::{Definitions, marked_inputs, part_of, whole_letters};
use pg_aiger_netlist::Netlist;
use pg_ltl::NormalNode;
use pg_satisfies_check::{
    CircuitPart, CubeSteps, EmptinessCertificate, shows_empty, shows_violated,
};
use pg_satisfies_promises::propositions_of;
use pg_satisfies_search::{
    CircuitPieces, InputLasso, Limits, SatisfactionProposal, SearchGuide, propose,
};
use std::alloc::{AllocError, Global};

/// What the search may spend on an attempt.
const LIMITS: Limits = Limits {
    nodes: 4_194_304,
    steps: 60_000_000_000,
};

/// The most steps that the check takes for a cube, and for a row of a node.
const FUEL: u32 = 16_777_216;

/// What an attempt came to.
#[derive(Debug, Drop)]
pub(crate) enum AttemptOutcome {
    /// The form holds on no run.
    Refuted,
    /// The form holds on the run on these letters of inputs, of which those from the place on come round.
    Violated(Vec<Vec<bool>>, usize),
    /// The search reached a limit.
    GivenUp,
    /// What the search proposed doesn't pass the check.
    Unshown,
}

/// A circuit, what defines its variables, the literals of a formula's propositions, and the parts of its promises.
#[derive(Clone, Copy)]
pub(crate) struct Question<'a> {
    pub(crate) netlist: &'a Netlist,
    pub(crate) definitions: &'a Definitions,
    pub(crate) literals: &'a [u32],
    pub(crate) nodes: &'a [NormalNode],
}

/// Returns the literals of some propositions.
fn literals_of(
    alloc: Global,
    literals: &[u32],
    propositions: &[u32],
) -> Result<Vec<u32>, AllocError> {
    let mut found = Vec::new(alloc);
    for proposition in propositions {
        found.push(literals.get(*proposition as usize).copied().unwrap_or(0))?;
    }
    Ok(found)
}

/// Whether a certificate shows that the form at the place holds on no run of the system.
fn is_refuted(
    alloc: Global,
    system: CircuitPart,
    nodes: &[NormalNode],
    place: usize,
    certificate: &EmptinessCertificate,
    guide: &SearchGuide<'_>,
    variables: usize,
) -> Result<bool, AllocError>
    requires { AreNormalNodes nodes.now }
    ensures { IfOk result (λ yes. OnTrue yes ((circuit : Circuit) → IsPartOf (circuit_of system) circuit
        → IsUnsatisfied circuit system.literals.items (normal_in nodes.now place))) }
{
    let mut steps = CubeSteps::new(alloc, system, variables)?;
    let circuit = guide.circuit();
    for number in 0..circuit.cubes() {
        let bits = circuit.cube(alloc, number)?;
        if !steps.add(alloc, bits, circuit, FUEL)? {
            return Ok(false);
        }
    }
    shows_empty(alloc, &steps, nodes, place, certificate, guide, FUEL)
}

/// Returns what a proposed lasso shows.
fn violation(
    alloc: Global,
    question: Question<'_>,
    system: &CircuitPart,
    place: usize,
    marks: &[bool],
    lasso: &InputLasso,
) -> Result<AttemptOutcome, AllocError>
    requires nodes { AreNormalNodes question.nodes.now }
    requires part { IsPartOf (circuit_of system.now) question.netlist.now }
    requires literals { system.now.literals.items ≡ question.literals.now }
    ensures { IfOk result (Shows question.entry.netlist.now question.entry.literals.now question.entry.nodes.now place) }
{
    let inputs = question.netlist.input_literals();
    let letters = whole_letters(alloc, inputs, marks, &lasso.letters)?;
    if lasso.back >= letters.len() {
        return Ok(AttemptOutcome::Unshown);
    }
    let is_shown = shows_violated(
        alloc,
        system,
        question.definitions.variables(),
        inputs,
        question.nodes,
        place,
        &letters,
        lasso.back,
    )?;
    if is_shown {
        return Ok(AttemptOutcome::Violated(letters, lasso.back));
    }
    Ok(AttemptOutcome::Unshown)
}

/// Returns what the proposal about the form at a place shows.
fn judged(
    alloc: Global,
    question: Question<'_>,
    place: usize,
    marks: &[bool],
    system: CircuitPart,
    circuit: &CircuitPieces,
    proposal: &SatisfactionProposal,
) -> Result<AttemptOutcome, AllocError>
    requires nodes { AreNormalNodes question.nodes.now }
    requires part { IsPartOf (circuit_of system) question.netlist.now }
    requires literals { system.literals.items ≡ question.literals.now }
    ensures { IfOk result (Shows question.entry.netlist.now question.entry.literals.now question.entry.nodes.now place) }
{
    match proposal {
        SatisfactionProposal::GivenUp(_) => Ok(AttemptOutcome::GivenUp),
        SatisfactionProposal::Violated(lasso) => violation(
            alloc, question, &system, place, marks, lasso,
        ),
        SatisfactionProposal::Satisfied(certificate, product) => {
            let guide = product.guide(circuit);
            let variables = question.definitions.variables();
            if is_refuted(
                alloc,
                system,
                question.nodes,
                place,
                certificate,
                &guide,
                variables,
            )? {
                return Ok(AttemptOutcome::Refuted);
            }
            Ok(AttemptOutcome::Unshown)
        }
    }
}

/// Marks the variables on which the propositions of the form at a place depend.
fn cone_of(
    alloc: Global,
    question: Question<'_>,
    propositions: &[u32],
) -> Result<Vec<bool>, AllocError> {
    let spoken = literals_of(alloc, question.literals, propositions)?;
    question.definitions.cone(alloc, question.netlist, &spoken)
}

/// Returns the pieces of the circuit that the search made, and what it proposes.
fn proposed(
    alloc: Global,
    question: Question<'_>,
    place: usize,
    propositions: &[u32],
    marks: &[bool],
    system: &CircuitPart,
) -> Result<(CircuitPieces, SatisfactionProposal), AllocError> {
    let inputs = marked_inputs(alloc, question.netlist.input_literals(), marks)?;
    let mut circuit = CircuitPieces::new(alloc, system, &inputs, propositions)?;
    let proposal = propose(&mut circuit, question.nodes, place, LIMITS)?;
    Ok((circuit, proposal))
}

/// Attempts to refute the form at a place on the part of the circuit that it speaks of.
fn attempt(
    alloc: Global,
    question: Question<'_>,
    place: usize,
) -> Result<AttemptOutcome, AllocError>
    requires { AreNormalNodes question.nodes.now }
    ensures { IfOk result (Shows question.entry.netlist.now question.entry.literals.now question.entry.nodes.now place) }
{
    let propositions = propositions_of(alloc, question.nodes, place)?;
    let marks = cone_of(alloc, question, &propositions)?;
    let system = part_of(alloc, question.netlist, question.literals, &marks)?;
    let (circuit, proposal) = proposed(alloc, question, place, &propositions, &marks, &system)?;
    judged(alloc, question, place, &marks, system, &circuit, &proposal)
}

/// Attempts to refute a promise: one of its tries after the other, until one is refuted. Otherwise returns what became of the last one.
pub(crate) fn refute(
    alloc: Global,
    question: Question<'_>,
    tries: &[usize],
) -> Result<AttemptOutcome, AllocError>
    requires { AreNormalNodes question.nodes.now }
    ensures { IfOk result (ShowsAll question.entry.netlist.now question.entry.literals.now question.entry.nodes.now tries.now) }
{
    let count = tries.len();
    for k in 0..count {
        let outcome = attempt(alloc, question, tries[k])?;
        if k + 1 == count {
            return Ok(outcome);
        }
        if let AttemptOutcome::Refuted = outcome {
            return Ok(AttemptOutcome::Refuted);
        }
    }
    Ok(AttemptOutcome::GivenUp)
}
