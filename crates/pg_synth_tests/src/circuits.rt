//! The circuit of a machine that follows a solution of an automaton's game, and the circuit's text. The rows of `game` and
//! of `synth` show more of them.

ghost use Rattle.std.specs.Prelude.{◌≡◌, length};
ghost use Rattle.pg_synth.specs.Letters.{inputs, outputs};

use pg_aiger::{AigerFault, Circuit, circuit_of, write_circuit};
use pg_arena::Vertex;
use pg_check::{Verdict, check};
use pg_hoa::{Automaton, read_automaton};
use pg_synth::{Mealy, game_of, mealy_of};
use pg_text::read_solution;
use std::alloc::Global;
use std::io;
use std::test::Fail;

/// Over r and g: g is the value of r one step before, and false at first.
const DELAY: &[u8] =
    b"HOA: v1\nStates: 2\nStart: 0\nAP: 2 \"r\" \"g\"\ncontrollable-AP: 1\nAcceptance: 2 Fin(1) & Inf(0)\n\
    --BODY--\nState: 0\n[!0&!1] 0 {0}\n[0&!1] 1 {0}\nState: 1\n[!0&1] 0 {0}\n[0&1] 1 {0}\n--END--\n";

const SOLUTION: &[u8] = b"0 1 0; 1 0; 2 0; 4 0 2; 5 0 7; 7 0; 9 0 2; 10 0 7;";

const TEXT: &[u8] =
    b"aag 8 1 1 1 6\n2\n4 15\n17\n6 5 3\n8 5 2\n10 4 3\n12 4 2\n14 13 9\n16 13 11\ni0 r\no0 g\n";

/// The automaton and its circuit.
#[derive(Drop)]
struct Made {
    automaton: Automaton,
    circuit: Circuit,
    ghost as_many_inputs: { length circuit.inputs ≡ inputs automaton.controllable },
    ghost as_many_outputs: { length circuit.outputs ≡ outputs automaton.controllable },
}

/// Whether the machine has two states, each of which sets g to its own number and goes to the state with the number r.
fn delays(machine: &Mealy) -> bool {
    machine.inputs() == 1
        && machine.outputs() == 1
        && machine.states() == 2
        && machine.step(0, 0) == (0, 0)
        && machine.step(0, 1) == (0, 1)
        && machine.step(1, 0) == (1, 0)
        && machine.step(1, 1) == (1, 1)
}

fn delay(alloc: Global) -> Result<Made, Fail> {
    let automaton = read_automaton(alloc, DELAY)?;
    let synth = game_of(alloc, &automaton)?;
    let solution = read_solution(alloc, &synth.game, SOLUTION)?;
    let Verdict::Wins = check(alloc, &synth.game, &solution)? else {
        return Err(Fail::from("the solution is not sound"));
    };
    let Some(machine) = mealy_of(alloc, &automaton, &synth, &solution)? else {
        return Err(Fail::from("Odd wins"));
    };
    if synth.initial != Vertex(1) || !delays(&machine) {
        return Err(Fail::from("another machine"));
    }
    let circuit = circuit_of(alloc, &machine)?;
    Ok(Made { automaton, circuit })
}

/// Input letters, output letters and latches.
static STEPS: [(u32, u32, u32); 5] = [(1, 0, 1), (0, 1, 0), (0, 0, 0), (1, 0, 1), (1, 1, 1)];

/// Whether the circuit goes through these steps.
fn goes(circuit: &Circuit) -> Result<bool, AigerFault> {
    let mut bits = 0;
    for (input, output, latches) in &STEPS {
        if circuit.step(&mut bits, *input)? != *output || bits != *latches {
            return Ok(false);
        }
    }
    Ok(true)
}

#[test]
fn a_circuit_follows_its_machine(rt: HostRuntime) -> Result<(), Fail> {
    let made = delay(rt.alloc())?;
    assert!(rt; goes(&made.circuit)?);
    Ok(())
}

/// A writer that takes `room` bytes and then fails.
#[derive(Drop)]
struct FullOutput {
    room: usize,
}

impl io::Write for FullOutput {
    fn write(&mut self, buf: &[u8]) -> io::Result<usize> {
        if self.room < buf.len() {
            return Err(io::Error::from(io::ErrorKind::WriteZero));
        }
        self.room -= buf.len();
        Ok(buf.len())
    }

    fn flush(&mut self) -> io::Result<()> {
        Ok(())
    }
}

/// Whether the circuit has this text.
fn has_text(alloc: Global, made: &Made, text: &[u8]) -> Result<bool, AigerFault> {
    let mut written = Vec::new(alloc);
    write_circuit(&made.circuit, &made.automaton, &mut written)?;
    Ok(written.as_slice() == text)
}

/// Whether writing the circuit to a writer that takes `room` bytes fails.
fn is_refused(made: &Made, room: usize) -> bool {
    let mut full = FullOutput { room };
    write_circuit(&made.circuit, &made.automaton, &mut full) == Err(AigerFault::Write)
}

#[test]
fn a_circuit_is_written_unless_the_writer_fails(rt: HostRuntime) -> Result<(), Fail> {
    let made = delay(rt.alloc())?;
    assert!(rt; has_text(rt.alloc(), &made, TEXT)?);
    for room in 0..TEXT.len() {
        assert!(rt; is_refused(&made, room), "{room}");
    }
    Ok(())
}

#[test]
fn faults_have_their_texts(rt: HostRuntime) -> Result<(), Fail> {
    for (fault, text) in [
        (AigerFault::OutOfMemory, "out of memory"),
        (AigerFault::TooLarge, "circuit too large"),
        (AigerFault::Write, "cannot write the output"),
    ] {
        let printed = format!(in rt.alloc(); "{fault}")?;
        assert_eq!(rt; printed.as_str(), text);
    }
    Ok(())
}
