//! Wrong circuits and automata that are proposed aren't printed, whether the circuits play the controller or the environment.

use pg_aiger::Gate;
use pg_arena::Game;
use pg_cli_command::{
    CliFault, Command, MOST_BYTES, ProposedCircuit, Solver, Untranslated, write_answer_by,
};
use pg_cli_in_one_piece::InOnePiece;
use pg_hoa::Automaton;
use pg_ltl::Formula;
use pg_solver::{Found, Maps};
use std::alloc::{AllocError, Global};

/// Solves games in one piece, and proposes wrong circuits and automata. If `is_right_too` is set, it also proposes a right circuit, and it
/// proposes a right automaton instead of the wrong one.
#[derive(Clone, Copy)]
struct WrongProposer {
    is_right_too: bool,
}

/// Returns a circuit with one output, and perhaps a latch and a gate.
fn proposed(
    alloc: Global,
    next: Option<u32>,
    output: u32,
    gate: Option<Gate>,
) -> Result<ProposedCircuit, AllocError> {
    let mut proposal = ProposedCircuit {
        nexts: Vec::new(alloc),
        outputs: vec![in alloc; output]?,
        gates: Vec::new(alloc),
    };
    if let Some(next) = next {
        proposal.nexts.push(next)?;
    }
    if let Some(gate) = gate {
        proposal.gates.push(gate)?;
    }
    Ok(proposal)
}

/// Returns a gate over two literals.
fn gate(lhs: u32, rhs0: u32, rhs1: u32) -> Option<Gate> {
    Some(Gate { lhs, rhs0, rhs1 })
}

impl Solver for WrongProposer {
    type Map = Found;

    ghost use Rattle.pg_cli_command.specs.Measuring.{IsMeasureOf};

    ghost finds = { λ _. IsMeasureOf };

    ghost measures = { λ _. IsMeasureOf };

    fn measure(&mut self, alloc: Global, game: &Game) -> Result<Found, AllocError> {
        InOnePiece.measure(alloc, game)
    }

    fn solve(&mut self, alloc: Global, game: &Game) -> Result<Maps<Found>, AllocError> {
        InOnePiece.solve(alloc, game)
    }

    fn propose(
        &self,
        alloc: Global,
        _automaton: &Automaton,
    ) -> Result<Vec<ProposedCircuit>, AllocError> {
        let mut proposals = Vec::new(alloc);
        // no grant ever, and each request granted in the same step
        proposals.push(proposed(alloc, None, 0, None)?)?;
        proposals.push(proposed(alloc, None, 2, None)?)?;
        // a grant after each step without a request
        proposals.push(proposed(alloc, Some(3), 4, None)?)?;
        // an output that no variable has, a gate of another variable's literal, and one over itself
        proposals.push(proposed(alloc, Some(2), 6, None)?)?;
        proposals.push(proposed(alloc, Some(2), 4, gate(8, 4, 2))?)?;
        proposals.push(proposed(alloc, Some(2), 6, gate(6, 6, 2))?)?;
        // two outputs
        let mut two = proposed(alloc, Some(2), 4, None)?;
        two.outputs.push(4)?;
        proposals.push(two)?;
        if self.is_right_too {
            proposals.push(proposed(alloc, Some(2), 4, None)?)?;
        }
        Ok(proposals)
    }

    fn translate(
        &self,
        alloc: Global,
        _formula: &Formula,
        _names: &[Vec<u8>],
    ) -> Result<Vec<u8>, Untranslated> {
        let proposed = if self.is_right_too { RECURRING } else { EVERY };
        match proposed.to_vec(alloc) {
            Ok(text) => Ok(text),
            Err(_) => Err(Untranslated::OutOfMemory),
        }
    }

    fn propose_environment(
        &self,
        alloc: Global,
        _automaton: &Automaton,
    ) -> Result<Vec<ProposedCircuit>, AllocError> {
        let mut proposals = Vec::new(alloc);
        // always a request, and one in each step without a grant, which isn't known yet
        proposals.push(proposed(alloc, None, 1, None)?)?;
        proposals.push(proposed(alloc, None, 3, None)?)?;
        // a request after each grant, and two outputs
        proposals.push(proposed(alloc, Some(2), 4, None)?)?;
        let mut two = proposed(alloc, Some(3), 4, None)?;
        two.outputs.push(4)?;
        proposals.push(two)?;
        if self.is_right_too {
            proposals.push(proposed(alloc, Some(3), 4, None)?)?;
        }
        Ok(proposals)
    }

    ghost closed = { λ _ game map m. record {
      bounds = m.bounds;
      fits = m.least.map;
      closed = m.least.closed;
    } };
}

/// An automaton that accepts each word, and one that accepts those that satisfy `G F a`.
const EVERY: &[u8] =
    b"HOA: v1\nStart: 0\nAP: 1 \"a\"\nAcceptance: 0 t\n--BODY--\nState: 0\n[t] 0\n--END--\n";

const RECURRING: &[u8] =
    b"HOA: v1\nStart: 0\nAP: 1 \"a\"\nAcceptance: 1 Inf(0)\n--BODY--\nState: 0\n\
[0] 0 {0}\n[!0] 0\n--END--\n";

/// A grant has to come exactly in the step after a request.
const DELAY: &[u8] = b"HOA: v1\nStart: 0\nAP: 2 \"r\" \"g\"\ncontrollable-AP: 1\n\
Acceptance: 2 Fin(1) & Inf(0)\n--BODY--\nState: 0\n[!0&!1] 0 {0}\n[0&!1] 1 {0}\n\
State: 1\n[!0&1] 0 {0}\n[0&1] 1 {0}\n--END--\n";

/// The circuit for `DELAY`, as `synth` prints it.
const PLAIN: &[u8] = b"REALIZABLE\naag 8 1 1 1 6\n2\n4 15\n17\n6 5 3\n8 5 2\n10 4 3\n12 4 2\n\
14 13 9\n16 13 11\ni0 r\no0 g\n";

/// The right circuit for `DELAY`, as it is printed.
const SMALL: &[u8] = b"REALIZABLE\naag 2 1 1 1 0\n2\n4 2\n4\ni0 r\no0 g\n";

/// A grant has to come exactly in the step before a request.
const FORESIGHT: &[u8] = b"HOA: v1\nStart: 0\nAP: 2 \"r\" \"g\"\ncontrollable-AP: 1\n\
Acceptance: 2 Fin(1) & Inf(0)\n--BODY--\nState: 0\n[!1] 1 {0}\n[1] 2 {0}\n\
State: 1\n[!0&!1] 1 {0}\n[!0&1] 2 {0}\nState: 2\n[0&!1] 1 {0}\n[0&1] 2 {0}\n--END--\n";

/// A request comes in the step after each step without a grant.
const COUNTER: &[u8] = b"UNREALIZABLE\naag 2 1 1 1 0\n2\n4 3\n4\ni0 g\no0 r\n";

/// Returns the result of a command for a text, and what it prints. Returns None if the text is too long or memory runs out.
fn answered(
    alloc: Global,
    command: Command,
    text: &[u8],
    is_right_too: bool,
) -> Option<(Result<(), CliFault>, Vec<u8>)> {
    if text.len() > MOST_BYTES {
        return None;
    }
    let text = text.to_vec(alloc).ok()?;
    let mut solver = WrongProposer { is_right_too };
    let mut output = Vec::new(alloc);
    let done = write_answer_by(alloc, command, text, &mut solver, &mut output);
    Some((done, output))
}

/// Whether the command prints these bytes.
fn prints(alloc: Global, command: Command, text: &[u8], is_right_too: bool, wanted: &[u8]) -> bool {
    let answered = answered(alloc, command, text, is_right_too);
    matches!(&answered, Some((Ok(()), output)) if output.as_slice() == wanted)
}

#[test]
fn a_wrong_automaton_is_never_printed(rt: HostRuntime) {
    let (alloc, formula) = (rt.alloc(), b"G F a".as_slice());
    let wrong = answered(alloc, Command::Automaton, formula, false);
    assert!(rt; matches!(&wrong, Some((Err(CliFault::Unshown), output)) if output.is_empty()));
    assert!(rt; prints(alloc, Command::Automaton, formula, true, RECURRING));
}

#[test]
fn a_wrong_circuit_is_never_printed(rt: HostRuntime) {
    let (alloc, small) = (rt.alloc(), Command::SynthSmall { workers: 0 });
    assert!(rt; prints(alloc, small, DELAY, false, PLAIN));
    assert!(rt; prints(alloc, small, DELAY, true, SMALL));
}

#[test]
fn a_circuit_that_refutes_nothing_is_never_printed(rt: HostRuntime) {
    let (alloc, counter) = (rt.alloc(), Command::SynthCounter { workers: 0 });
    let wrong = answered(alloc, counter, FORESIGHT, false);
    assert!(rt; matches!(&wrong, Some((Err(_), output)) if output.is_empty()));
    assert!(rt; prints(alloc, counter, FORESIGHT, true, COUNTER));
    assert!(rt; prints(alloc, counter, DELAY, false, PLAIN));
}
