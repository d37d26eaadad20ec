ghost use Rattle.pg_cli_words.specs.Words.{HasFewWorkers};

use crate::streams::{
    CIRCUIT, FailingInput, FailingOutput, GAME, LOOP, SCRIPT, SOLVED, TURNS, TWO, WORLD,
};
use pg_cli::{CliFault, Command, run};
use std::alloc::Global;
use std::io::ErrorKind;

/// Whether the command reports that the read with this number failed, and writes nothing. Each read gives a byte, and the last one finds
/// the end.
fn tells_failed_read(alloc: Global, command: Command, input: &[u8], before: usize) -> bool
    requires { HasFewWorkers command }
{
    let mut reader = FailingInput {
        left: input,
        before,
        kind: ErrorKind::Other,
    };
    let mut output = Vec::new(alloc);
    let done = run(alloc, command, &mut reader, &mut output);
    matches!(&done, Err(CliFault::Read)) && output.is_empty()
}

/// Whether the command reports the failure of each read, one after the other, and then writes nothing.
fn tells_failed_reads(alloc: Global, command: Command, input: &[u8]) -> bool
    requires { HasFewWorkers command }
{
    for before in 0..input.len() + 1 {
        if !tells_failed_read(alloc, command, input, before) {
            return false;
        }
    }
    true
}

/// Runs the command with a writer that takes `before` bytes.
fn run_into(alloc: Global, command: Command, input: &[u8], before: usize) -> Result<(), CliFault>
    requires { HasFewWorkers command }
{
    let mut reader = input;
    let mut output = FailingOutput { before };
    run(alloc, command, &mut reader, &mut output)
}

/// Whether the command reports the failure of each write, one after the other, and none if all bytes of its answer are taken.
fn tells_failed_writes(alloc: Global, command: Command, input: &[u8], answer: &[u8]) -> bool
    requires { HasFewWorkers command }
{
    for before in 0..answer.len() {
        if !matches!(
            run_into(alloc, command, input, before),
            Err(CliFault::Write)
        ) {
            return false;
        }
    }
    run_into(alloc, command, input, answer.len()).is_ok()
}

#[test]
fn each_command_tells_a_failed_read(rt: HostRuntime) {
    let (alloc, workers) = (rt.alloc(), 2);
    assert!(rt; tells_failed_reads(alloc, Command::Measure { workers }, TWO));
    assert!(rt; tells_failed_reads(alloc, Command::Solve { workers }, TWO));
    assert!(rt; tells_failed_reads(alloc, Command::Check, SOLVED));
    assert!(rt; tells_failed_reads(alloc, Command::Replay, SCRIPT));
    assert!(rt; tells_failed_reads(alloc, Command::Game, LOOP));
    assert!(rt; tells_failed_reads(alloc, Command::Synth { workers }, TURNS));
}

#[test]
fn each_command_tells_a_failed_write(rt: HostRuntime) {
    let (alloc, workers) = (rt.alloc(), 2);
    assert!(rt; tells_failed_writes(alloc, Command::Measure { workers }, TWO, b"0 1;\n1 0;\n"));
    assert!(rt;
        tells_failed_writes(
            alloc,
            Command::Solve { workers },
            TWO,
            b"paritysol 1;\n0 0 1;\n1 0;\n"
        )
    );
    assert!(rt; tells_failed_writes(alloc, Command::Check, SOLVED, b"WINS\n"));
    assert!(rt; tells_failed_writes(alloc, Command::Replay, SCRIPT, WORLD));
    assert!(rt; tells_failed_writes(alloc, Command::Game, LOOP, GAME));
    assert!(rt; tells_failed_writes(alloc, Command::Synth { workers }, TURNS, CIRCUIT));
}
