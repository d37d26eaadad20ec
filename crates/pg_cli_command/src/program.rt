//! Runs a command, from its input to its answer.

ghost use Rattle.std.specs.Prelude.{◌≡◌, ◌≢◌, ◌+◌, ◌≤◌, ℕ, List, length, ◌⊎◌, IfOk, OnOk, IfSome, IsNone, IfErr};
ghost use Rattle.std.specs.Io.KnownBytes.{Appends};
ghost use Rattle.pg_cli_command.specs.Input.{StaysWithin};
ghost use Rattle.pg_cli_command.specs.Parts.{AreApart};
ghost use Rattle.pg_cli_command.specs.Measuring.{IsMeasured};
ghost use Rattle.pg_cli_command.specs.Checking.{IsChecked, RefusesCheck};
ghost use Rattle.pg_cli_command.specs.Replaying.{IsReplayed, RefusesReplay};
ghost use Rattle.pg_cli_command.specs.Refuting.{IsRefuted, RefusesRefute};
ghost use Rattle.pg_cli_command.specs.Verifying.{IsVerified, RefusesVerify};
ghost use Rattle.pg_cli_command.specs.Meaning.{IsMeant, RefusesMeans};
ghost use Rattle.pg_cli_command.specs.Satisfying.{IsJudgedOn, RefusesJudge};
ghost use Rattle.pg_cli_command.specs.Answers.{Answers};
ghost use Rattle.pg_cli_words.specs.Commands.{workers_of};

use crate::automaton::automaton;
use crate::check::check;
use crate::counter::synth_counter;
use crate::fault::CliFault;
use crate::game::game;
use crate::input::{MOST_BYTES, read_input};
use crate::means::means;
use crate::measure::measure;
use crate::memory::in_memory;
use crate::parts::Texts;
use crate::printing::print;
use crate::refute::refute;
use crate::replay::replay;
use crate::small::synth_small;
use crate::solve::{solve, solve_any};
use crate::solver::Solver;
use crate::synth::synth;
use crate::verify::verify;
use crate::verify_formula::verify_formula;
use pg_cli_words::Command;
use std::alloc::Global;
use std::io::{Read, Write};

/// Writes what `verify` prints for two texts in one input. The circuit plays the environment if `environment` is set, and otherwise the
/// controller.
fn write_look<F: Solver, W: Write>(
    alloc: Global,
    text: Vec<u8>,
    by_place: bool,
    environment: bool,
    solver: &mut F,
    writer: &mut W,
) -> Result<(), CliFault>
    requires limit { length text.items ≤ MOST_BYTES }
    ensures answer { (workers : ℕ) → Answers (F.finds solver.old) (Command.Verify workers by_place environment) text.items
        (W.contents writer.old) (W.contents writer.new) result }
    ensures unread { result ≢ Err CliFault.Read }
    ensures untouched { IfErr result (λ fault. fault ≢ CliFault.Write → writer.new ≡ writer.old) }
{
    if environment {
        return print(refute(alloc, Texts::Joined(text), by_place, solver), writer);
    }
    print(verify(alloc, Texts::Joined(text), by_place, solver), writer)
}

/// Writes the answer to a text of at most `MOST_BYTES` bytes, and nothing else, as `run_by` does after it has read its input. It fails as
/// `run_by` does from `NoSeparator` on, in the same order, and never with `Read` or `InputTooLong`.
pub fn write_answer_by<F: Solver, W: Write>(
    alloc: Global,
    command: Command,
    text: Vec<u8>,
    solver: &mut F,
    writer: &mut W,
) -> Result<(), CliFault>
    requires limit { length text.items ≤ MOST_BYTES }
    ensures answer { Answers (F.finds solver.old) command text.items (W.contents writer.old) (W.contents writer.new) result }
    ensures measured { (workers : ℕ) → command ≡ Command.Measure workers
        → OnOk result ((output : List ℕ) × IsMeasured (F.measures solver.old) text.items output
        × Appends (W.contents writer.old) (W.contents writer.new) output) }
    ensures unread { result ≢ Err CliFault.Read }
    ensures untouched { IfErr result (λ fault. fault ≢ CliFault.Write → writer.new ≡ writer.old) }
    ensures unused { IsNone (workers_of command) → solver.new ≡ solver.old }
{
    match command {
        Command::Measure { .. } => print(measure(alloc, text, solver), writer),
        Command::Solve { .. } => print(solve(alloc, text, solver), writer),
        Command::SolveAny { .. } => print(solve_any(alloc, text, solver), writer),
        Command::Check => print(check(alloc, Texts::Joined(text)), writer),
        Command::Replay => print(replay(alloc, Texts::Joined(text)), writer),
        Command::Automaton => print(automaton(alloc, text, solver), writer),
        Command::Means => print(means(alloc, Texts::Joined(text)), writer),
        Command::Game => print(game(alloc, text), writer),
        Command::Synth { .. } => print(synth(alloc, text, solver), writer),
        Command::SynthSmall { .. } => print(synth_small(alloc, text, solver), writer),
        Command::SynthCounter { .. } => print(synth_counter(alloc, text, solver), writer),
        Command::Verify {
            by_place,
            environment,
            ..
        } => write_look(alloc, text, by_place, environment, solver, writer),
        Command::VerifyFormula { environment } => {
            print(
                verify_formula(alloc, Texts::Joined(text), environment),
                writer,
            )
        }
    }
}

/// Returns what `check` prints for a game and a solution of it, given as two texts; they need no line `--`. Fails with
/// `Text`, for the first text before the second, and with `OutOfMemory`.
pub fn check_texts(alloc: Global, first: Vec<u8>, second: Vec<u8>) -> Result<Vec<u8>, CliFault>
    ensures answer { IfOk result (λ output. IsChecked (AreApart first.items second.items) output.items) }
    ensures refused { IfErr result (λ fault.
        (fault ≡ CliFault.OutOfMemory) ⊎ RefusesCheck (AreApart first.items second.items) fault) }
{
    let mut output = Vec::new(alloc);
    let written = print(check(alloc, Texts::Apart(first, second)), &mut output);
    in_memory(written, output)
}

/// Returns what `verify` prints for an automaton and a circuit, given as two texts; they need no line `--`. Fails with
/// `Hoa` for the first text, `Circuit` for the second, `Tie`, `Netlist`, `Verify` and `Synth` for a product or game
/// that is too large, `Undecided`, and `OutOfMemory`.
pub fn verify_texts<F: Solver>(
    alloc: Global,
    by_place: bool,
    first: Vec<u8>,
    second: Vec<u8>,
    solver: &mut F,
) -> Result<Vec<u8>, CliFault>
    ensures answer { IfOk result (λ output. IsVerified (AreApart first.items second.items) by_place output.items) }
    ensures refused { IfErr result (λ fault. (fault ≡ CliFault.OutOfMemory)
        ⊎ RefusesVerify (F.finds solver.old) (AreApart first.items second.items) by_place fault) }
{
    let mut output = Vec::new(alloc);
    let worked_out = verify(alloc, Texts::Apart(first, second), by_place, solver);
    let written = print(worked_out, &mut output);
    in_memory(written, output)
}

/// Returns what `verify --environment` prints for an automaton and a circuit that plays the environment, given as two texts; they need no
/// line `--`. Fails as `verify_texts` does, and with `Hearing` for an output that depends on an input of the same step.
pub fn refute_texts<F: Solver>(
    alloc: Global,
    by_place: bool,
    first: Vec<u8>,
    second: Vec<u8>,
    solver: &mut F,
) -> Result<Vec<u8>, CliFault>
    ensures answer { IfOk result (λ output. IsRefuted (AreApart first.items second.items) by_place output.items) }
    ensures refused { IfErr result (λ fault. (fault ≡ CliFault.OutOfMemory)
        ⊎ RefusesRefute (F.finds solver.old) (AreApart first.items second.items) by_place fault) }
{
    let mut output = Vec::new(alloc);
    let worked_out = refute(alloc, Texts::Apart(first, second), by_place, solver);
    let written = print(worked_out, &mut output);
    in_memory(written, output)
}

/// Returns what `verify --ltl` prints for a formula and a circuit, given as two texts; they need no line `--`. The circuit plays the
/// environment if `environment` is set, and otherwise the controller. Fails with `Formula` for the first text, `Circuit` for the second,
/// `Names` for a name that means no signal of the circuit, `Netlist`, `Satisfies`, and `OutOfMemory`.
pub fn verify_formula_texts(
    alloc: Global,
    environment: bool,
    first: Vec<u8>,
    second: Vec<u8>,
) -> Result<Vec<u8>, CliFault>
    ensures answer { IfOk result (λ output. IsJudgedOn (AreApart first.items second.items) environment output.items) }
    ensures refused { IfErr result (λ fault.
        (fault ≡ CliFault.OutOfMemory) ⊎ RefusesJudge (AreApart first.items second.items) fault) }
{
    let mut output = Vec::new(alloc);
    let written = print(
        verify_formula(alloc, Texts::Apart(first, second), environment),
        &mut output,
    );
    in_memory(written, output)
}

/// Returns what `means` prints for an automaton and a formula, given as two texts; they need no line `--`. Fails with `Hoa` for the first
/// text, `Formula` for the second, `TooManyPropositions`, `Means`, and `OutOfMemory`.
pub fn means_texts(alloc: Global, first: Vec<u8>, second: Vec<u8>) -> Result<Vec<u8>, CliFault>
    ensures answer { IfOk result (λ output. IsMeant (AreApart first.items second.items) output.items) }
    ensures refused { IfErr result (λ fault.
        (fault ≡ CliFault.OutOfMemory) ⊎ RefusesMeans (AreApart first.items second.items) fault) }
{
    let mut output = Vec::new(alloc);
    let written = print(means(alloc, Texts::Apart(first, second)), &mut output);
    in_memory(written, output)
}

/// Writes what `replay` prints for a game and a script, given as two texts; they need no line `--`. Fails with `Text`,
/// `Script`, `World` and `Write`, in this order, and with `OutOfMemory`. After a fault other than `Write` nothing was
/// written.
pub fn replay_texts<W: Write>(
    alloc: Global,
    first: Vec<u8>,
    second: Vec<u8>,
    writer: &mut W,
) -> Result<(), CliFault>
    ensures answer { OnOk result ((output : List ℕ) × IsReplayed (AreApart first.items second.items) output
        × Appends (W.contents writer.old) (W.contents writer.new) output) }
    ensures refused { IfErr result (λ fault. (fault ≡ CliFault.Write)
        ⊎ ((fault ≡ CliFault.OutOfMemory) ⊎ RefusesReplay (AreApart first.items second.items) fault)) }
    ensures untouched { IfErr result (λ fault. fault ≢ CliFault.Write → writer.new ≡ writer.old) }
{
    print(replay(alloc, Texts::Apart(first, second)), writer)
}

/// Reads the whole input, and writes the answer to it and nothing else. Pass a buffered writer, and flush it
/// afterwards. The solver solves the games; a command that solves nothing doesn't use it. The number of workers in the
/// command has no effect.
///
/// It returns the first of these faults. `Read`. `InputTooLong`: there are more than 268,435,456 bytes; it reads at
/// most the first one over the limit. `NoSeparator`: the command reads two texts, and there is no line `--` between
/// them. `Text`, for a game or a solution, the first text's fault before the second's; `Script`, for a second text that
/// is no script for the game; `Hoa`, for an automaton; for `verify`, then `Circuit`, `Tie`, `Netlist` and `Verify`; `Formula`, for a
/// formula; then, for `means`, `TooManyPropositions` and `Means`, for `automaton` `TooManyPropositions`, `Untranslated`, `Means` and
/// `Unshown`, and for `verify --ltl` `Circuit`, `Names`,
/// `Netlist` and `Satisfies`.
/// `Undecided`, from `solve`, `synth` and `verify`. `World`, from `replay`: the first event that the world refuses.
/// `Synth`, from `game`, `synth` and `verify`: the game of the automaton is too large. `Aiger`, from `synth`: the
/// circuit of the controller is too large. `Write`: part of the answer may have been written. `OutOfMemory` can come at
/// any point. Nothing is written before the work is done, so after a fault other than `Write` nothing was written.
pub fn run_by<F: Solver, R: Read, W: Write>(
    alloc: Global,
    command: Command,
    solver: &mut F,
    reader: &mut R,
    writer: &mut W,
) -> Result<(), CliFault>
    ensures answer { IfSome (R.remaining reader.old) (λ input.
        Answers (F.finds solver.old) command input (W.contents writer.old) (W.contents writer.new) result) }
    ensures measured { (workers : ℕ) → command ≡ Command.Measure workers
        → OnOk result (IfSome (R.remaining reader.old) (λ input.
        (output : List ℕ) × IsMeasured (F.measures solver.old) input output
        × Appends (W.contents writer.old) (W.contents writer.new) output)) }
    // In every case, no byte after the first one over the limit is read.
    ensures no_further { StaysWithin (R.remaining reader.old) (R.remaining reader.new) (MOST_BYTES + 1) }
    ensures untouched { IfErr result (λ fault. fault ≢ CliFault.Write → writer.new ≡ writer.old) }
    ensures unused { IsNone (workers_of command) → solver.new ≡ solver.old }
{
    let text = read_input(alloc, reader)?;
    write_answer_by(alloc, command, text, solver, writer)
}
