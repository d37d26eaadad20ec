//! The checker, which decides whether a solution is sound.

ghost use Rattle.std.specs.Prelude.{◌≡◌, ◌↔◌, ◌<◌, length, IfOk, IfErr, IfSome, IfNone};
ghost use Rattle.pg_arena.specs.Games.{IsGame};
ghost use Rattle.pg_text.specs.Solutions.{IsSolution};
ghost use Rattle.pg_check.specs.Soundness.{IsSound, NoneLeaves};
ghost use Rattle.pg_check.specs.Mirrors.Cycles.{IsLost, HasNoCycle, HasNoBadCycle};
ghost use Rattle.pg_check.specs.Verdicts.{IsSimpleBadCycle, IsWins, Refutes};
ghost use Rattle.pg_check.specs.declared.fault.CheckFault.TheVariants.{OutOfMemory};

use crate::cycle::{cycle_through, is_lost};
use crate::edges::first_leaving;
use crate::fault::CheckFault;
use crate::order::is_order;
use crate::proposal::{CycleProposal, propose};
use crate::verdict::Verdict;
use pg_arena::{Game, Vertex};
use pg_text::Solution;
use std::alloc::{AllocError, Global};

/// Returns a bad cycle through `v` on which no priority is greater than that of `v`, if there is one.
fn bad_cycle_through(
    alloc: Global,
    game: &Game,
    solution: &Solution,
    v: Vertex,
) -> Result<Option<Vec<Vertex>>, AllocError>
    requires whole { length solution.now ≡ length game.now }
    requires within { v < length game.now }
    ensures none { IfOk result (λ found. IfNone found
        (IsLost game.now solution.now v → HasNoCycle game.now solution.now v)) }
    ensures some { IfOk result (λ found. IfSome found (λ cycle. IsSimpleBadCycle game.now solution.now cycle.items)) }
{
    if !is_lost(game, solution, v) {
        return Ok(None);
    }
    cycle_through(alloc, game, solution, v)
}

/// Returns a bad cycle, if there is one, by a search from each vertex.
fn search_each(
    alloc: Global,
    game: &Game,
    solution: &Solution,
) -> Result<Option<Vec<Vertex>>, AllocError>
    requires { length solution.now ≡ length game.now }
    ensures none { IfOk result (λ found. IfNone found (HasNoBadCycle game.now solution.now)) }
    ensures some { IfOk result (λ found. IfSome found (λ cycle. IsSimpleBadCycle game.now solution.now cycle.items)) }
{
    for number in 0..game.len() as u32 {
        if let Some(cycle) = bad_cycle_through(alloc, game, solution, Vertex(number))? {
            return Ok(Some(cycle));
        }
    }
    Ok(None)
}

/// Returns a bad cycle, if there is one. A proposed order may show that there is none, or a proposed suspect that one goes through
/// it; otherwise the search from each vertex decides. With what is proposed that search never runs, but this isn't proved, nor
/// needed.
fn bad_cycle(
    alloc: Global,
    game: &Game,
    solution: &Solution,
) -> Result<Option<Vec<Vertex>>, AllocError>
    requires whole { length solution.now ≡ length game.now }
    requires none_leaves { NoneLeaves game.now solution.now }
    ensures game { IsGame game.now }
    ensures none { IfOk result (λ found. IfNone found (HasNoBadCycle game.now solution.now)) }
    ensures some { IfOk result (λ found. IfSome found (λ cycle. IsSimpleBadCycle game.now solution.now cycle.items)) }
{
    let count = game.len();
    match propose(alloc, game, solution)? {
        CycleProposal::Order(order) => {
            if is_order(game, solution, &order) {
                return Ok(None);
            }
        }
        CycleProposal::Suspect(v) => {
            if (v.0 as usize) < count
                && let Some(cycle) = bad_cycle_through(alloc, game, solution, v)?
            {
                return Ok(Some(cycle));
            }
        }
    }
    search_each(alloc, game, solution)
}

/// Decides whether a solution is sound. `Wins`: it is. `Leaves`: an edge that the solution allows joins vertices with
/// different winners; the edge is the least one, compared first by its source and then by its target. `BadCycle`: there
/// is no such edge, and there is a cycle that the loser wins.
///
/// The time is linear in the edges, times at most the logarithm of the greatest priority. It takes memory for a few
/// numbers for each vertex and edge. It fails only with `OutOfMemory`.
pub fn check(alloc: Global, game: &Game, solution: &Solution) -> Result<Verdict, CheckFault>
    requires { IsSolution game.now solution.now }
    ensures wins { IfOk result (λ verdict. IsWins verdict ↔ IsSound game.now solution.now) }
    ensures refutes { IfOk result (Refutes game.now solution.now) }
    ensures err { IfErr result (λ fault. fault ≡ OutOfMemory) }
{
    if let Some((from, to)) = first_leaving(game, solution) {
        return Ok(Verdict::Leaves(from, to));
    }
    match bad_cycle(alloc, game, solution)? {
        Some(cycle) => Ok(Verdict::BadCycle(cycle)),
        None => Ok(Verdict::Wins),
    }
}
