//! Commands whose games other programs solve.

ghost use Rattle.std.specs.Prelude.{◌≡◌, ◌≢◌, ◌+◌, ◌<◌, ◌≤◌, ◌⊎◌, length, IfOk, IfSome, IfErr};
ghost use Rattle.pg_cli_command.specs.Input.{StaysWithin};
ghost use Rattle.pg_cli_command.specs.Measuring.{IsClosedMapOf, IsMeasureOf};
ghost use Rattle.pg_cli_command.specs.Answers.{Answers, Prints, PrintsBy, Refuses, RefusesBy};
ghost use Rattle.pg_cli_words.specs.Words.{HasFewWorkers, HasNoWorkers};

use crate::over_links::Rounds;
use crate::program::answer_over;
use pg_cli_command::{CliFault, Command, MOST_BYTES, in_memory, read_input};
use pg_coord::{Link, LinkFault, Reach, SocketLink, halt};
use std::alloc::{AllocError, Global};
use std::io::{Read, Write};

/// The seconds that the programs of a command have in all, counted from when they are first started.
const SECONDS: u64 = 60;

/// Returns links to `count` programs that aren't started yet. Fails with `Listen` if it can't listen on any port, and with `OutOfMemory`.
fn program_links<R: Reach>(
    rt: &R,
    alloc: Global,
    path: &str,
    count: u32,
) -> Result<Vec<SocketLink<R>>, CliFault>
    ensures ok { IfOk result (λ links. length links.items ≡ count) }
    ensures fault { IfErr result (λ e. (e ≡ CliFault.OutOfMemory) ⊎ ((e ≡ CliFault.Listen) × (0 < count))) }
{
    let mut links = Vec::new(alloc);
    for _ in 0..count {
        match SocketLink::listen(rt.clone()?, alloc, path) {
            Ok(mut link) => {
                link.limit(SECONDS);
                links.push(link).map_err(AllocError::from)?;
            }
            Err(LinkFault::OutOfMemory) => return Err(CliFault::OutOfMemory),
            Err(LinkFault::Failed) => return Err(CliFault::Listen),
        }
    }
    Ok(links)
}

/// Tells the programs that were started to end, and makes sure that each has ended. It knows nothing about programs that these started in
/// turn.
fn end<R: Reach>(mut links: Vec<SocketLink<R>>) {
    let started = links.as_mut_slice();
    for place in 0..started.len() {
        if started[place].has_program() {
            halt(&mut started[place..place + 1]);
        }
    }
    for link in links {
        link.close();
    }
}

/// The programs that solve for a command, as many as it has workers. They are started when they are first needed.
#[derive(Drop)]
pub struct Programs<R: Reach> {
    /// A link to each of the programs.
    pub links: Vec<SocketLink<R>>,
}

impl<R: Reach> Programs<R> {
    ghost use Rattle.std.specs.Prelude.{◌≡◌, ◌<◌, ◌⊎◌, length, unwrap_or, IfOk, IfErr};
    ghost use Rattle.pg_cli_words.specs.Commands.{workers_of};

    /// Listens for as many programs as the command has workers; each of them will be `path`. Fails with `Listen` if it can't listen on any
    /// port of 127.0.0.1, and with `OutOfMemory`. If the command asks for no workers, or solves nothing, it needs no program.
    pub fn listen(
        rt: &R,
        alloc: Global,
        command: Command,
        path: &str,
    ) -> Result<Programs<R>, CliFault>
        ensures ok { IfOk result (λ programs. length programs.links.items ≡ unwrap_or (workers_of command) 0) }
        ensures fault { IfErr result (λ e. (e ≡ CliFault.OutOfMemory)
            ⊎ ((e ≡ CliFault.Listen) × (0 < unwrap_or (workers_of command) 0))) }
    {
        let links = program_links(rt, alloc, path, command.workers().unwrap_or(0))?;
        Ok(Programs { links })
    }

    /// Writes the answer to a text of at most `MOST_BYTES` bytes, as `run_apart` does after it has read its input, and ends the programs.
    /// It fails as `write_answer` does, in the same order.
    pub fn write_answer<W: Write>(
        mut self,
        alloc: Global,
        command: Command,
        text: Vec<u8>,
        writer: &mut W,
    ) -> Result<(), CliFault>
        requires { length text.items ≤ MOST_BYTES }
        ensures answer { Answers IsClosedMapOf command text.items (W.contents writer.old) (W.contents writer.new) result }
        ensures alone { length self.links.items ≡ 0
            → Answers IsMeasureOf command text.items (W.contents writer.old) (W.contents writer.new) result }
        ensures unread { result ≢ Err CliFault.Read }
        ensures listened { result ≢ Err CliFault.Listen }
        ensures untouched { IfErr result (λ fault. fault ≢ CliFault.Write → writer.new ≡ writer.old) }
    {
        let workers = self.links.as_mut_slice();
        let answered = answer_over(alloc, command, workers, Rounds::BySize, text, writer);
        end(self.links);
        answered
    }

    /// Returns the answer to a text of at most `MOST_BYTES` bytes, whatever the programs do, and ends them. It fails as `write_answer`
    /// does, but never with `Write`. Without programs the answer and the fault are those of `pg_cli::answer`.
    pub fn answer(self, alloc: Global, command: Command, text: Vec<u8>) -> Result<Vec<u8>, CliFault>
        requires { length text.items ≤ MOST_BYTES }
        ensures answer { IfOk result (λ output. PrintsBy IsClosedMapOf command text.items output.items) }
        ensures alone { length self.links.items ≡ 0 → IfOk result (λ output. Prints command text.items output.items) }
        ensures refused { IfErr result (RefusesBy IsClosedMapOf command text.items) }
        ensures refused_alone { length self.links.items ≡ 0 → IfErr result (Refuses command text.items) }
        ensures unread { result ≢ Err CliFault.Read }
        ensures unwritten { result ≢ Err CliFault.Write }
    {
        let mut output = Vec::new(alloc);
        let written = self.write_answer(alloc, command, text, &mut output);
        in_memory(written, output)
    }
}

/// As `run`, but starts the program `path` as each worker: `path worker --port P`, which must call `work`. Each program that it started has
/// ended when this returns; programs that those started in turn may still run.
///
/// Whatever the programs do, and even if none can be started, the output comes from a closed map of the game and one of its dual, as for
/// `run_with`. After a number of rounds that depends on the size of the game, 60 seconds after programs were first started, or when no
/// program is left, the work goes on in this process.
///
/// It fails as `run` does, in the same order, and before all else with `Listen` if it can't listen on any port of 127.0.0.1. If the command
/// asks for no workers, or solves nothing, it needs no program, and the answer or fault is that of `run`.
pub fn run_apart<S: Reach, R: Read, W: Write>(
    rt: &S,
    alloc: Global,
    command: Command,
    path: &str,
    reader: &mut R,
    writer: &mut W,
) -> Result<(), CliFault>
    requires { HasFewWorkers command }
    ensures answer { (result ≡ Err CliFault.Listen) ⊎ IfSome (R.remaining reader.old) (λ input.
        Answers IsClosedMapOf command input (W.contents writer.old) (W.contents writer.new) result) }
    ensures alone { HasNoWorkers command → IfSome (R.remaining reader.old) (λ input.
        Answers IsMeasureOf command input (W.contents writer.old) (W.contents writer.new) result) }
    // If it can't listen on any port, it reads nothing.
    ensures listens_first { result ≡ Err CliFault.Listen → reader.new ≡ reader.old }
    // In every case, no byte after the first one over the limit is read.
    ensures no_further { StaysWithin (R.remaining reader.old) (R.remaining reader.new) (MOST_BYTES + 1) }
    ensures untouched { IfErr result (λ fault. fault ≢ CliFault.Write → writer.new ≡ writer.old) }
{
    let programs = Programs::listen(rt, alloc, command, path)?;
    let text = read_input(alloc, reader)?;
    programs.write_answer(alloc, command, text, writer)
}
