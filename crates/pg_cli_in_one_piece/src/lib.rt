//! The method of solving in one piece, in this process.
#![tactic(auto)]

use pg_aiger::Gate;
use pg_arena::Game;
use pg_cli_command::{ProposedCircuit, Solver, Untranslated};
use pg_hoa::Automaton;
use pg_ltl::Formula;
use pg_search::{propose, propose_measure};
use pg_solver::{Found, Maps};
use pg_translate::TranslateFault;
use std::alloc::{AllocError, Global};

/// Solves games in one piece: maps of a game and of its dual are proposed and then certified.
#[derive(Clone, Copy)]
pub struct InOnePiece;

/// Returns the number of propositions of an automaton that the controller doesn't set.
fn inputs_of(automaton: &Automaton) -> u32 {
    let mut inputs: u32 = 0;
    for a in 0..automaton.propositions() {
        if !automaton.controllable(a) {
            inputs = inputs.saturating_add(1);
        }
    }
    inputs
}

/// Returns the gates of a proposal. The first gate has the literal `first`, and the literal of each later gate is greater by 2. Each gate
/// has its greater operand first.
fn gates_of(
    alloc: Global,
    first: u32,
    gates: &[pg_small::Conjunction],
) -> Result<Vec<Gate>, AllocError> {
    let mut list = Vec::new(alloc);
    let mut lhs = first;
    for gate in gates {
        list.push(Gate {
            lhs,
            rhs0: gate.left.max(gate.right),
            rhs1: gate.left.min(gate.right),
        })?;
        lhs = lhs.saturating_add(2);
    }
    Ok(list)
}

/// Returns proposals for an automaton, numbered as circuits are.
fn all_numbered(
    alloc: Global,
    automaton: &Automaton,
    found: Vec<pg_small::SmallCircuit>,
) -> Result<Vec<ProposedCircuit>, AllocError> {
    let inputs = inputs_of(automaton);
    let mut proposals = Vec::new(alloc);
    for it in found {
        proposals.push(numbered(alloc, inputs, it)?)?;
    }
    Ok(proposals)
}

/// Returns a proposal for an automaton with `inputs` inputs, numbered as circuits are.
fn numbered(
    alloc: Global,
    inputs: u32,
    found: pg_small::SmallCircuit,
) -> Result<ProposedCircuit, AllocError> {
    let latches = u32::try_from(found.latches.len()).unwrap_or(u32::MAX);
    let first = inputs.saturating_add(latches).saturating_add(1);
    Ok(ProposedCircuit {
        gates: gates_of(alloc, first.saturating_mul(2), &found.gates)?,
        nexts: found.latches,
        outputs: found.outputs,
    })
}

impl Solver for InOnePiece {
    type Map = Found;

    ghost use Rattle.pg_cli_command.specs.Measuring.{IsMeasureOf};

    ghost finds = { λ _. IsMeasureOf };

    ghost measures = { λ _. IsMeasureOf };

    fn measure(&mut self, alloc: Global, game: &Game) -> Result<Found, AllocError> {
        let proposal = propose_measure(alloc, game)?;
        pg_solver::measure(alloc, game, proposal)
    }

    fn solve(&mut self, alloc: Global, game: &Game) -> Result<Maps<Found>, AllocError> {
        let proposals = propose(alloc, game)?;
        pg_solver::solve(alloc, game, proposals)
    }

    fn propose(
        &self,
        alloc: Global,
        automaton: &Automaton,
    ) -> Result<Vec<ProposedCircuit>, AllocError> {
        all_numbered(alloc, automaton, pg_small::propose(alloc, automaton)?)
    }

    fn translate(
        &self,
        alloc: Global,
        formula: &Formula,
        names: &[Vec<u8>],
    ) -> Result<Vec<u8>, Untranslated> {
        match pg_translate::propose(alloc, formula, names) {
            Ok(text) => Ok(text),
            Err(TranslateFault::OutOfMemory) => Err(Untranslated::OutOfMemory),
            Err(TranslateFault::TooManyStates) => Err(Untranslated::TooManyStates),
            Err(TranslateFault::TooManySteps) => Err(Untranslated::TooManySteps),
        }
    }

    fn propose_environment(
        &self,
        alloc: Global,
        automaton: &Automaton,
    ) -> Result<Vec<ProposedCircuit>, AllocError> {
        all_numbered(alloc, automaton, pg_small::propose_moore(alloc, automaton)?)
    }

    ghost closed = { λ _ game map m. record {
      bounds = m.bounds;
      fits = m.least.map;
      closed = m.least.closed;
    } };
}
