//! Runs a command, from its input to its answer.

ghost use Rattle.std.specs.Prelude.{◌≡◌, ◌≢◌, ◌+◌, ◌≤◌, ℕ, List, length, ◌⊎◌, All, IfOk, OnOk, IfSome, IsNone, IfErr};
ghost use Rattle.std.specs.Io.KnownBytes.{Appends};
ghost use Rattle.pg_cli_command.specs.Input.{StaysWithin};
ghost use Rattle.pg_cli_command.specs.Measuring.{IsClosedMapOf, IsMeasureOf, IsMeasured};
ghost use Rattle.pg_cli_command.specs.Answers.{Answers, Prints, Refuses};
ghost use Rattle.pg_cli_command.specs.Parts.{AreApart};
ghost use Rattle.pg_cli_command.specs.Refuting.{IsLookedAt, RefusesLook};
ghost use Rattle.pg_cli_words.specs.Commands.{workers_of};
ghost use Rattle.pg_cli.specs.Linked.{IsLeastOverTold};
ghost use Rattle.pg_cli_words.specs.Words.{HasFewWorkers};

use crate::over_links::{OverLinks, Rounds};
use pg_cli_command::{CliFault, Command, MOST_BYTES, in_memory, read_input, run_by};
use pg_cli_in_one_piece::InOnePiece;
use pg_coord::{Link, MemoryLink};
use std::alloc::{AllocError, Global};
use std::io::{Read, Write};

/// Returns links to `count` workers in this process.
fn memory_links(alloc: Global, count: u32) -> Result<Vec<MemoryLink>, AllocError>
    ensures { IfOk result (λ links. length links.items ≡ count) }
{
    let mut links = Vec::new(alloc);
    for _ in 0..count {
        let Ok(link) = MemoryLink::new(alloc) else {
            return Err(AllocError);
        };
        links.push(link)?;
    }
    Ok(links)
}

/// Reads the whole input, and writes the answer to it and nothing else. Pass a buffered writer, and flush it
/// afterwards. If the command solves a game of at most 256 vertices, as many workers as the command says share it in
/// this process, for at most 8 rounds. After that, and for larger games from the start, it is solved in one piece. The
/// clauses say the same about the answer for every number of workers.
///
/// It returns the first of these faults. `Read`. `InputTooLong`: there are more than 268,435,456 bytes; it reads at
/// most the first one over the limit. `NoSeparator`: the command reads two texts, and there is no line `--` between
/// them. `Text`, for a game or a solution, the first text's fault before the second's; `Script`, for a second text that
/// is no script for the game; `Hoa`, for an automaton; for `verify`, then `Circuit`, `Tie`, `Netlist` and `Verify`; `Formula`, for a
/// formula; then, for `means`, `TooManyPropositions` and `Means`, and for `automaton` `Untranslated`, `Means` and `Unshown`.
/// `Undecided`, from `solve`, `synth` and `verify`. `World`, from `replay`: the first event that the world refuses.
/// `Synth`, from `game`, `synth` and `verify`: the game of the automaton is too large. `Aiger`, from `synth`: the
/// circuit of the controller is too large. `Write`: part of the answer may have been written. `OutOfMemory` can come at
/// any point. Nothing is written before the work is done, so after a fault other than `Write` nothing was written.
pub fn run<R: Read, W: Write>(
    alloc: Global,
    command: Command,
    reader: &mut R,
    writer: &mut W,
) -> Result<(), CliFault>
    requires { HasFewWorkers command }
    ensures answer { IfSome (R.remaining reader.old) (λ input.
        Answers IsMeasureOf command input (W.contents writer.old) (W.contents writer.new) result) }
    // In every case, no byte after the first one over the limit is read.
    ensures no_further { StaysWithin (R.remaining reader.old) (R.remaining reader.new) (MOST_BYTES + 1) }
    ensures untouched { IfErr result (λ fault. fault ≢ CliFault.Write → writer.new ≡ writer.old) }
{
    let text = read_input(alloc, reader)?;
    write_answer(alloc, command, text, writer)
}

/// Writes the answer to a text of at most `MOST_BYTES` bytes, and nothing else, as `run` does after it has read its input. It fails as
/// `run` does from `NoSeparator` on, in the same order, and never with `Read` or `InputTooLong`.
pub fn write_answer<W: Write>(
    alloc: Global,
    command: Command,
    text: Vec<u8>,
    writer: &mut W,
) -> Result<(), CliFault>
    requires few { HasFewWorkers command }
    requires limit { length text.items ≤ MOST_BYTES }
    ensures answer { Answers IsMeasureOf command text.items (W.contents writer.old) (W.contents writer.new) result }
    ensures unread { result ≢ Err CliFault.Read }
    ensures untouched { IfErr result (λ fault. fault ≢ CliFault.Write → writer.new ≡ writer.old) }
{
    let mut links = memory_links(alloc, command.workers().unwrap_or(0))?;
    let workers = links.as_mut_slice();
    answer_over(alloc, command, workers, Rounds::Few, text, writer)
}

/// Returns the answer to a text of at most `MOST_BYTES` bytes. It fails as `write_answer` does, but never with `Write`.
pub fn answer(alloc: Global, command: Command, text: Vec<u8>) -> Result<Vec<u8>, CliFault>
    requires few { HasFewWorkers command }
    requires limit { length text.items ≤ MOST_BYTES }
    ensures answer { IfOk result (λ output. Prints command text.items output.items) }
    ensures refused { IfErr result (Refuses command text.items) }
    ensures unread { result ≢ Err CliFault.Read }
    ensures unwritten { result ≢ Err CliFault.Write }
{
    let mut output = Vec::new(alloc);
    let written = write_answer(alloc, command, text, &mut output);
    in_memory(written, output)
}

/// Returns what `verify` prints for an automaton and a circuit, given as two texts; they need no line `--`. The game is
/// solved in one piece. It fails as `pg_cli_command::verify_texts` does, or as `refute_texts` if the circuit plays the environment.
pub fn verify_texts(
    alloc: Global,
    by_place: bool,
    environment: bool,
    first: Vec<u8>,
    second: Vec<u8>,
) -> Result<Vec<u8>, CliFault>
    ensures answer { IfOk result (λ output. IsLookedAt environment (AreApart first.items second.items) by_place output.items) }
    ensures refused { IfErr result (λ fault. (fault ≡ CliFault.OutOfMemory)
        ⊎ RefusesLook environment IsMeasureOf (AreApart first.items second.items) by_place fault) }
{
    if environment {
        return pg_cli_command::refute_texts(alloc, by_place, first, second, &mut InOnePiece);
    }
    pg_cli_command::verify_texts(alloc, by_place, first, second, &mut InOnePiece)
}

/// Writes the answer to a text, and solves games over these links in as many rounds as `rounds` says.
pub(crate) fn answer_over<L: Link, W: Write>(
    alloc: Global,
    command: Command,
    links: &mut [L],
    rounds: Rounds,
    text: Vec<u8>,
    writer: &mut W,
) -> Result<(), CliFault>
    requires limit { length text.items ≤ MOST_BYTES }
    ensures answer { Answers IsClosedMapOf command text.items (W.contents writer.old) (W.contents writer.new) result }
    ensures honest { All L.is_honest links.old
        → Answers IsMeasureOf command text.items (W.contents writer.old) (W.contents writer.new) result }
    ensures unread { result ≢ Err CliFault.Read }
    ensures untouched { IfErr result (λ fault. fault ≢ CliFault.Write → writer.new ≡ writer.old) }
{
    let mut solver = OverLinks { links, rounds };
    pg_cli_command::write_answer_by(alloc, command, text, &mut solver, writer)
}

/// As `run`, over the given links, at most 16. If the command solves a game, the game is cut evenly among them, and
/// then its dual. The number of workers in the command has no effect, and a command that solves nothing doesn't use the
/// links. After a number of rounds that depends on the size of the game, or when no link is left, `solve` and `synth`
/// go on in this process; `measure` makes as many rounds as it needs.
///
/// Whatever the links answer, the output comes from a closed map of the game and one of its dual, so the printed
/// winners win and the automaton accepts the printed circuit. Over honest links the answers and faults are those of
/// `run`, and `Undecided` never comes. Over other links `Undecided` names the least vertex at which some closed map of
/// the game and some closed map of its dual are both top. Over links that tell their replies and don't fail, `measure`
/// prints the least closed map that is at least every value in the replies that were taken: at least one of each link,
/// or all.
///
/// It fails as `run` does, in the same order.
pub fn run_with<L: Link, R: Read, W: Write>(
    alloc: Global,
    command: Command,
    links: &mut [L],
    reader: &mut R,
    writer: &mut W,
) -> Result<(), CliFault>
    requires { length links.old ≤ 16 }
    ensures answer { IfSome (R.remaining reader.old) (λ input.
        Answers IsClosedMapOf command input (W.contents writer.old) (W.contents writer.new) result) }
    ensures honest { All L.is_honest links.old → IfSome (R.remaining reader.old) (λ input.
        Answers IsMeasureOf command input (W.contents writer.old) (W.contents writer.new) result) }
    ensures told { (workers : ℕ) → command ≡ Command.Measure workers
        → OnOk result (IfSome (R.remaining reader.old) (λ input.
        (output : List ℕ) × IsMeasured (IsLeastOverTold L.told links.old) input output
        × Appends (W.contents writer.old) (W.contents writer.new) output)) }
    // In every case, no byte after the first one over the limit is read.
    ensures no_further { StaysWithin (R.remaining reader.old) (R.remaining reader.new) (MOST_BYTES + 1) }
    ensures untouched { IfErr result (λ fault. fault ≢ CliFault.Write → writer.new ≡ writer.old) }
    ensures unused { IsNone (workers_of command) → links.new ≡ links.old }
{
    let mut solver = OverLinks {
        links,
        rounds: Rounds::Any,
    };
    run_by(alloc, command, &mut solver, reader, writer)
}
