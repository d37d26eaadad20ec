//! Reading solutions.

ghost use Rattle.std.specs.Prelude.{◌≡◌, ◌≢◌, ◌-◌, ℕ, ◌<◌, List, Bool, true, false, length, IfOk, IfErr, OnErr, IfSome, IfNone, MatchResult};
ghost use Rattle.pg_arena.specs.Games.{identifier, IsEdge, IsGame};
ghost use Rattle.pg_text.specs.declared.answer.Answer.{Answer};
ghost use Rattle.pg_text.specs.declared.fault.TextFault.TheVariants.{OutOfMemory};
ghost use Rattle.pg_text.specs.Lexemes.{after_space};
ghost use Rattle.pg_text.specs.SolutionText.{owns, IsSolutionText, RefusesSolution};
ghost use Rattle.pg_text.specs.Mirrors.SolutionReading.{Chooses, LeadsNowhere, Puts, IsMisfit, BeginsMisfit, BeginsWell, HasRead, IsRefused, is_complete, misfit_fault};

use crate::fault::TextFault;
use crate::line::player;
use crate::reading::{clause, natural};
use crate::solution::Solution;
use crate::solution_line::{SolutionLine, next_answer};
use crate::tokens::{left_at, next_token};
use pg_arena::{Game, Player, Vertex};
use std::alloc::Global;

/// Why a line of a solution can't be taken.
#[derive(Clone, Copy)]
pub(crate) enum Misfit {
    /// It names no vertex of the game, or a strategy that counts and isn't a successor.
    NotOfGame,
    /// An earlier line names the same vertex.
    Repeated,
}

impl Misfit {
    /// Returns the fault of the line with this identifier, which is at the start of `rest`, the end of the text from
    /// there on.
    fn of_line(self, identifier: u32, text: &[u8], rest: &[u8]) -> TextFault
        ensures { result ≡ misfit_fault self identifier (length text.now - length (after_space rest.now)) }
    {
        match self {
            Misfit::NotOfGame => TextFault::NotOfGame(identifier),
            Misfit::Repeated => TextFault::Syntax(text.len().saturating_sub(left_at(rest))),
        }
    }
}

/// Whether the player owns `v`.
pub(crate) fn is_owned(game: &Game, player: Player, v: Vertex) -> bool
    requires { v < length game.now }
    ensures { result ≡ owns game.now player v }
{
    game.owner(v) == player
}

/// Returns the successor of `v` with this identifier, if there is one.
fn successor(game: &Game, v: Vertex, wanted: u32) -> Option<Vertex>
    requires game { IsGame game.now }
    requires within { v < length game.now }
    ensures found { IfSome result (λ w. IsEdge game.now v w × (identifier game.now w ≡ wanted)) }
    ensures absent { IfNone result ((w : ℕ) → IsEdge game.now v w → identifier game.now w ≢ wanted) }
{
    let w = game.vertex_of(wanted)?;
    match game.successors(v).binary_search(&w) {
        Ok(_) => Some(w),
        Err(_) => None,
    }
}

/// Returns the choice at `v` that the line names. None if the line's strategy counts and isn't a successor.
fn choice_of(game: &Game, line: SolutionLine, v: Vertex) -> Option<Option<Vertex>>
    requires game { IsGame game.now }
    requires within { v < length game.now }
    ensures named { IfSome result (Chooses game.now line v) }
    ensures none { IfNone result (LeadsNowhere game.now line v) }
{
    match line.strategy {
        Some(wanted) if is_owned(game, line.winner, v) => match successor(game, v, wanted) {
            Some(w) => Some(Some(w)),
            None => None,
        },
        _ => Some(None),
    }
}

/// Enters the line's answer into the solution, and marks its vertex.
fn take_line(
    game: &Game,
    line: SolutionLine,
    solution: &mut Solution,
    seen: &mut [bool],
) -> Result<(), Misfit>
    requires game { IsGame game.now }
    requires whole { length solution.old ≡ length game.now }
    requires marks { length seen.old ≡ length game.now }
    ensures ok { IfOk result (λ _. Puts game.now line solution.old seen.old solution.new seen.new) }
    ensures err { IfErr result (IsMisfit game.now line seen.old) }
{
    let Some(v) = game.vertex_of(line.identifier) else {
        return Err(Misfit::NotOfGame);
    };
    if seen[v.0 as usize] {
        return Err(Misfit::Repeated);
    }
    let Some(choice) = choice_of(game, line, v) else {
        return Err(Misfit::NotOfGame);
    };
    seen[v.0 as usize] = true;
    solution.set(v, line.winner, choice);
    Ok(())
}

/// Returns the identifier of the line that begins here, and why that line can't be taken, if its identifier, or its
/// winner and its strategy, show it before the end of the line is read. An identifier counts once the token after it
/// can be read, a strategy at once.
fn early_misfit(game: &Game, seen: &[bool], bytes: &[u8]) -> Option<(u32, Misfit)>
    requires game { IsGame game.now }
    requires marks { length seen.now ≡ length game.now }
    ensures misfit { IfSome result (λ x. BeginsMisfit game.now seen.now bytes.now x.0 x.1) }
    ensures none { IfNone result (BeginsWell game.now seen.now bytes.now) }
{
    let Ok((identifier, rest)) = natural(bytes) else {
        return None;
    };
    let Ok(_) = next_token(rest) else {
        return None;
    };
    let Some(v) = game.vertex_of(identifier) else {
        return Some((identifier, Misfit::NotOfGame));
    };
    if seen[v.0 as usize] {
        return Some((identifier, Misfit::Repeated));
    }
    let Ok((winner, rest)) = player(rest) else {
        return None;
    };
    let Ok((wanted, _)) = natural(rest) else {
        return None;
    };
    match successor(game, v, wanted) {
        None if is_owned(game, winner, v) => Some((identifier, Misfit::NotOfGame)),
        _ => None,
    }
}

fn is_answered(game: &Game, solution: &Solution, seen: &[bool], v: Vertex) -> bool
    requires within { v < length game.now }
    requires whole { length solution.now ≡ length game.now }
    requires marks { length seen.now ≡ length game.now }
    ensures { result ≡ is_complete game.now solution.now seen.now v }
{
    seen[v.0 as usize] && (!is_owned(game, solution.winner(v), v) || solution.choice(v).is_some())
}

/// Returns the first vertex without a line, or without a choice although its winner owns it, if there is one.
fn first_missing(game: &Game, solution: &Solution, seen: &[bool]) -> Option<Vertex>
    requires whole { length solution.now ≡ length game.now }
    requires marks { length seen.now ≡ length game.now }
    ensures within { IfSome result (λ v. v < length game.now) }
    ensures missing { IfSome result (λ v. is_complete game.now solution.now seen.now v ≡ false) }
    ensures first { IfSome result (λ v. (u : ℕ) → u < v → is_complete game.now solution.now seen.now u ≡ true) }
    ensures none { IfNone result ((u : ℕ) → u < length game.now → is_complete game.now solution.now seen.now u ≡ true) }
{
    for i in 0..game.len() {
        let v = Vertex(i as u32);
        if !is_answered(game, solution, seen, v) {
            return Some(v);
        }
    }
    None
}

/// Reads the lines of the text. Returns the solution that they give, and a mark for each vertex that one of them names.
fn read_lines(alloc: Global, game: &Game, bytes: &[u8]) -> Result<(Solution, Vec<bool>), TextFault>
    requires { IsGame game.now }
    ensures read { IfOk result (λ x. HasRead bytes.now game.now x.0 x.1.items) }
    ensures refused { IfErr result (IsRefused bytes.now game.now) }
{
    let mut solution = Solution::new(alloc, game)?;
    let mut seen = vec![in alloc; false; game.len()]?;
    let mut rest = match clause(b"paritysol", bytes) {
        Ok((_header, rest)) => rest,
        Err(fault) => return Err(fault.in_text(bytes.len())),
    };
    'lines: loop {
        match next_answer(rest) {
            Ok((Some(line), after)) => {
                if let Err(misfit) = take_line(game, line, &mut solution, &mut seen) {
                    return Err(misfit.of_line(line.identifier, bytes, rest));
                }
                rest = after;
            }
            Ok((None, _)) => return Ok((solution, seen)),
            Err(fault) => {
                if let Some((identifier, misfit)) = early_misfit(game, &seen, rest) {
                    return Err(misfit.of_line(identifier, bytes, rest));
                }
                return Err(fault.in_text(bytes.len()));
            }
        }
    }
}

/// Reads a solution of the game in PGSolver's format: optionally `paritysol N;`, and then one line for each vertex, in
/// any order. A line has an identifier, a winner (0 is Even, 1 is Odd), optionally the identifier of the successor that
/// the winner chooses, and a `;`. The number in the header has no effect. A line needs a strategy if the winner owns
/// the vertex; elsewhere it may have one, which is ignored.
///
/// It reads from left to right and returns the first of these faults. `NotOfGame`: a line has an identifier that no
/// vertex has, or its winner owns the vertex and its strategy is no successor. `Syntax`: a line repeats the identifier
/// of an earlier line. `Syntax` or `NumberTooLarge`: the next bytes are none of these, and neither a line nor the end
/// of the text. `Missing`, at the end: the least identifier of a vertex that has no line, or whose line needs a
/// strategy and has none. After such an identifier or strategy the rest of the line doesn't matter, except that an
/// identifier must be followed by some token; if it isn't, that fault comes first. No clause says whether it is
/// `Syntax` or `NumberTooLarge`, or with which offset; tests do: the fault is at the first token that can't stand where
/// it stands, or at the repeated identifier, and it is `NumberTooLarge` if that token is a number over its limit.
/// `OutOfMemory` can come at any point.
pub fn read_solution(alloc: Global, game: &Game, bytes: &[u8]) -> Result<Solution, TextFault>
    ensures found { IfOk result (IsSolutionText bytes.now game.now) }
    // Bytes that spell a solution are read, unless memory runs out, and they spell no other.
    ensures only { (solution : List Answer) → IsSolutionText bytes.now game.now solution
        → MatchResult result (λ found. found ≡ solution) (λ fault. fault ≡ TextFault.OutOfMemory) }
    ensures refused { IfErr result (λ fault. fault ≢ TextFault.OutOfMemory → RefusesSolution bytes.now game.now fault) }
{
    let _vertices = game.len();
    let (solution, seen) = read_lines(alloc, game, bytes)?;
    match first_missing(game, &solution, &seen) {
        Some(v) => Err(TextFault::Missing(game.identifier(v))),
        None => Ok(solution),
    }
}
