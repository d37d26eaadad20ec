//! Reading games.

ghost use Rattle.std.specs.Prelude.{◌≡◌, ◌≢◌, List, IfOk, IfErr, MatchResult};
ghost use Rattle.pg_arena.specs.Games.{GameVertex, HasPrioritiesUpTo};
ghost use Rattle.pg_text.specs.GameText.{IsGameText, Refuses};
ghost use Rattle.pg_text.specs.Mirrors.Building.{BuildsLines};

use crate::fault::TextFault;
use crate::line::{body, item};
use pg_arena::{Game, GameBuilder};
use std::alloc::Global;

/// Returns a builder with the lines of the text.
fn builder_of(alloc: Global, bytes: &[u8]) -> Result<GameBuilder, TextFault>
    ensures { BuildsLines bytes.now result }
{
    let mut rest = match body(bytes) {
        Ok(rest) => rest,
        Err(fault) => return Err(fault.in_text(bytes.len())),
    };
    let mut builder = GameBuilder::new(alloc);
    let mut successors = Vec::new(alloc);
    'lines: loop {
        match item(&mut successors, rest) {
            Ok((Some(line), after)) => {
                builder.add(
                    line.identifier,
                    line.priority,
                    line.owner,
                    &successors,
                    line.name,
                )?;
                rest = after;
            }
            Ok((None, _)) => return Ok(builder),
            Err(refusal) => return Err(refusal.in_text(bytes.len())),
        }
    }
}

/// Reads a game in PGSolver's format: optionally `parity N;`, optionally `start N;`, and then lines. A line has an
/// identifier, a priority, an owner (0 is Even, 1 is Odd), successors separated by commas, optionally a name in quotes,
/// and a `;`. The numbers in the header and in `start` have no effect. Identifiers need not be contiguous or in order,
/// a line may name a successor that a later line defines, and a repeated successor counts once.
///
/// It reads from left to right and returns the first of these faults. `Syntax` or `NumberTooLarge`: the bytes begin
/// with lines that keep the limits, and neither a line nor the end of the text comes after those. `Arena`, at the `;`
/// of a line: `GameBuilder::add` refuses the line. `Arena`, at the end: `GameBuilder::finish` refuses the game. No
/// clause says which of the first two it is, or with which offset; tests do: the fault is at the first token that can't
/// stand where it stands, and it is `NumberTooLarge` if that token is a number over its limit. `OutOfMemory` can come
/// at any point.
pub fn read_game(alloc: Global, bytes: &[u8]) -> Result<Game, TextFault>
    ensures found { IfOk result (IsGameText bytes.now) }
    // Bytes that spell a game are read, unless memory runs out, and they spell no other.
    ensures only { (game : List GameVertex) → IsGameText bytes.now game
        → MatchResult result (λ found. found ≡ game) (λ fault. fault ≡ TextFault.OutOfMemory) }
    ensures priorities { IfOk result (HasPrioritiesUpTo 65535) }
    ensures refused { IfErr result (λ fault. fault ≢ TextFault.OutOfMemory → Refuses bytes.now fault) }
{
    Ok(builder_of(alloc, bytes)?.finish()?)
}
