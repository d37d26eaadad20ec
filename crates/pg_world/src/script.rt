//! Reads scripts: a cut and events.

ghost use Rattle.std.specs.Prelude.{◌≡◌, ◌≢◌, ℕ, ◌<◌, List, length, Option, option_map, IfOk, IfErr, IfSome, IfNone, MatchResult};
ghost use Rattle.pg_arena.specs.Games.{IsGame, vertex_at};
ghost use Rattle.pg_coord_partition.specs.Cuts.{CutValue};
ghost use Rattle.pg_world.specs.declared.event.Event.{Event};
ghost use Rattle.pg_world.specs.declared.script_fault.ScriptFault.TheVariants.{OutOfMemory};
ghost use Rattle.pg_world.specs.Worlds.{IsEventOf};
ghost use Rattle.pg_world.specs.ScriptText.{IsCutOf, IsScriptText};
ghost use Rattle.pg_world.specs.Mirrors.ScriptReading.{IsEventAt, AreEvents, IsHead, IsOnlyHead, IsNoScript, AreNoEvents};

use crate::event::Event;
use crate::script_fault::ScriptFault;
use crate::script_line::{ScriptLine, cut_numbers, next_line};
use pg_arena::{Game, Vertex};
use pg_text::reading::{clause, unexpected};
use pg_worker::Cut;
use std::alloc::{AllocError, Global};

/// The greatest number of workers in a script.
const MAX_WORKERS: u32 = 16;

/// A script: how the game is cut among workers, and the events.
#[derive(Drop)]
pub struct Script {
    pub cut: Cut,
    pub events: Vec<Event>,
}

/// Returns the vertex with this identifier. It fails with `NoVertex` if there is none.
fn vertex(game: &Game, identifier: u32) -> Result<Vertex, ScriptFault>
    ensures found { IfOk result (λ v. (v < length game.now) × ((vertex_at game.now v).identifier ≡ identifier)) }
    ensures absent { IfErr result (λ _.
        (v : ℕ) → v < length game.now → (vertex_at game.now v).identifier ≢ identifier) }
{
    match game.vertex_of(identifier) {
        Some(v) => Ok(v),
        None => Err(ScriptFault::NoVertex(identifier)),
    }
}

/// Returns the event of a line. It fails with `NoVertex` if no vertex has its identifier.
fn event_of(game: &Game, line: ScriptLine) -> Result<Event, ScriptFault>
    ensures found { IfOk result (IsEventAt game.now line) }
    ensures none { IfErr result (λ _. (e : Event) → ¬ IsEventAt game.now line e) }
{
    match line {
        ScriptLine::Lift(worker, identifier) => Ok(Event::Lift(worker, vertex(game, identifier)?)),
        ScriptLine::Deliver(replica, number) => Ok(Event::Deliver(replica, number as usize)),
        ScriptLine::Restart(worker) => Ok(Event::Restart(worker)),
        ScriptLine::Central(identifier) => Ok(Event::CoordinatorLift(vertex(game, identifier)?)),
    }
}

/// Returns the cut among `workers` workers, with these numbers if there are any, and the even cut otherwise. Returns None
/// if the numbers are no cut of the game.
fn cut_of(
    alloc: Global,
    game: &Game,
    workers: u32,
    numbers: Option<Vec<u32>>,
) -> Result<Option<Cut>, AllocError>
    ensures cut { IfOk result (λ o. IfSome o (λ c.
        (c.workers ≡ workers) × IsCutOf game.now (option_map (λ list. list.items) numbers) c)) }
    ensures none { IfOk result (λ o. IfNone o ((c : CutValue) → c.workers ≡ workers
        → ¬ IsCutOf game.now (option_map (λ list. list.items) numbers) c)) }
{
    match numbers {
        None => Ok(Some(Cut::even(alloc, game.len() as u32, workers)?)),
        Some(list) => {
            if list.len() == game.len() {
                Cut::from_list(alloc, workers, &list)
            } else {
                Ok(None)
            }
        }
    }
}

/// Reads the cut, and returns it with the bytes after its lines.
fn read_head<'a>(
    alloc: Global,
    game: &Game,
    bytes: &'a [u8],
) -> Result<(Cut, &'a [u8]), ScriptFault>
    requires { IsGame game.now }
    ensures head { IfOk result (λ x. IsHead bytes.now game.now x.0 x.1.now) }
    ensures only { IfOk result (λ x. IsOnlyHead bytes.now game.now x.0 x.1.now) }
    ensures refused { IfErr result (IsNoScript bytes.now game.now) }
{
    let (workers, rest) = match clause(b"workers", bytes) {
        Ok((Some(workers), rest)) => (workers, rest),
        Ok((None, _)) => return Err(ScriptFault::of_token(unexpected(bytes), bytes.len())),
        Err(fault) => return Err(ScriptFault::of_token(fault, bytes.len())),
    };
    if workers > MAX_WORKERS {
        return Err(ScriptFault::CutMismatch);
    }
    let (numbers, rest) = match cut_numbers(alloc, rest) {
        Ok(read) => read,
        Err(refusal) => return Err(ScriptFault::of_refusal(refusal, bytes.len())),
    };
    match cut_of(alloc, game, workers, numbers)? {
        Some(cut) => Ok((cut, rest)),
        None => Err(ScriptFault::CutMismatch),
    }
}

/// Reads the events from here up to the end of a text of `len` bytes.
fn read_events(
    alloc: Global,
    game: &Game,
    len: usize,
    bytes: &[u8],
) -> Result<Vec<Event>, ScriptFault>
    requires { IsGame game.now }
    ensures read { IfOk result (λ events. AreEvents bytes.now game.now events.items) }
    ensures refused { IfErr result (AreNoEvents bytes.now game.now) }
{
    let mut events = Vec::new(alloc);
    let mut rest = bytes;
    'lines: loop {
        match next_line(rest) {
            Ok((Some(line), after)) => {
                let event = event_of(game, line)?;
                events.push(event)?;
                rest = after;
            }
            Ok((None, _)) => return Ok(events),
            Err(fault) => return Err(ScriptFault::of_token(fault, len)),
        }
    }
}

/// Reads a script for the game: a cut and events. The first line is `workers N;`, with N from 0 to 16. The second line
/// may be `cut A,B,..;`, which has for each vertex, in rising order of identifiers, the number of its worker, from 1 to
/// N; without it the cut is even. Then come the events in their order: `lift W ID;`, worker W lifts the vertex with
/// identifier ID; `deliver R N;`, replica R takes update N; `restart W;`, worker W restarts; and `central ID;`, the
/// coordinator lifts. The tokens are those of games: white space may surround any of them, and is necessary only
/// between two numbers.
///
/// It reads from left to right and returns the first fault: `Syntax` or `NumberTooLarge` at the token at fault, and,
/// after the `;` of a line, `CutMismatch` if the line names more than 16 workers, or its numbers aren't one for each
/// vertex or aren't those of workers, and `NoVertex` if no vertex has its identifier. It doesn't ask whether the world
/// refuses an event.
pub fn read_script(alloc: Global, game: &Game, bytes: &[u8]) -> Result<Script, ScriptFault>
    ensures found { IfOk result (λ script. IsScriptText bytes.now game.now script.cut script.events.items) }
    // Bytes that spell a script are read, unless memory runs out, and they spell no other.
    ensures only { (cut : CutValue) (events : List Event) → IsScriptText bytes.now game.now cut events
        → MatchResult result (λ script. (script.cut ≡ cut) × (script.events.items ≡ events))
        (λ fault. fault ≡ OutOfMemory) }
{
    // called for the facts about the game in its contract
    let _vertices = game.len();
    let (cut, rest) = read_head(alloc, game, bytes)?;
    let events = read_events(alloc, game, bytes.len(), rest)?;
    Ok(Script { cut, events })
}
