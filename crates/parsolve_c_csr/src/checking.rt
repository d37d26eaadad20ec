//! Whether a solution in arrays is sound.

ghost use Rattle.std.specs.Prelude.{◌≡◌, ◌↔◌, ℕ, ◌<◌, ◌≤◌, length, All, IsTrue, IsFalse, IfSome, IfNone, OnOk, IfOk, IfErr};
ghost use Rattle.pg_text.specs.Solutions.{IsSolution};
ghost use Rattle.pg_check.specs.Soundness.{IsSound};
ghost use Rattle.pg_check.specs.Verdicts.{IsWins, Refutes};
ghost use Rattle.parsolve_c_csr.specs.Games.{SpellsGame, arrays_of, game_of};
ghost use Rattle.parsolve_c_csr.specs.Solutions.{solution_of, HaveSolutionLengths, IsChosen, SpellsSolution, HasNoChoice, KeepsCycle};
ghost use Rattle.parsolve_c_csr.specs.Faults.{IsBadWinner, RefusesCheck};

use crate::arrays::Arrays;
use crate::build::{build, examine};
use crate::fault::ArraysFault;
use crate::solution::read;
use pg_arena::{Game, Vertex};
use pg_check::Verdict;
use pg_text::Solution;
use std::alloc::Global;

/// Returns the first vertex whose winner is neither 0 nor 1.
fn bad_winner(winners: &[u8]) -> Option<u32>
    requires { length winners.now ≤ 1048576 }
    ensures some { IfSome result (IsBadWinner winners.now) }
    ensures none { IfNone result (All (λ w. w ≤ 1) winners.now) }
{
    for v in 0..winners.len() as u32 {
        if winners[v as usize] > 1 {
            return Some(v);
        }
    }
    None
}

/// Whether the winner of a vertex chooses a successor, if it owns the vertex.
fn is_chosen(game: &Game, solution: &Solution, v: Vertex) -> bool
    requires whole { length solution.now ≡ length game.now }
    requires within { v < length game.now }
    ensures yes { IsTrue result → IsChosen game.now solution.now v }
    ensures no { IsFalse result → HasNoChoice game.now solution.now v }
{
    if game.owner(v) != solution.winner(v) {
        return true;
    }
    match solution.choice(v) {
        Some(w) => game.successors(v).contains(&w),
        None => false,
    }
}

/// Returns the first vertex whose winner owns it and chooses no successor.
fn bad_choice(game: &Game, solution: &Solution) -> Option<u32>
    requires { length solution.now ≡ length game.now }
    ensures some { IfSome result (HasNoChoice game.now solution.now) }
    ensures before { IfSome result (λ v. (u : ℕ) → u < v → IsChosen game.now solution.now u) }
    ensures none { IfNone result (IsSolution game.now solution.now) }
{
    for v in 0..game.len() as u32 {
        if !is_chosen(game, solution, Vertex(v)) {
            return Some(v);
        }
    }
    None
}

/// Succeeds if there are a winner, 0 or 1, and a number of the strategy for each vertex of the arrays' game.
fn examine_solution(arrays: &Arrays, winners: &[u8], strategy: &[u32]) -> Result<(), ArraysFault>
    requires { SpellsGame (arrays_of arrays.now) }
    ensures lengths { OnOk result (HaveSolutionLengths (arrays_of arrays.now) winners.now strategy.now) }
    ensures players { OnOk result (All (λ w. w ≤ 1) winners.now) }
    ensures fault { IfErr result (RefusesCheck (arrays_of arrays.now) winners.now strategy.now) }
{
    let count = arrays.priorities.len();
    if winners.len() != count || strategy.len() != count {
        return Err(ArraysFault::SolutionLengths);
    }
    match bad_winner(winners) {
        None => Ok(()),
        Some(v) => Err(ArraysFault::BadWinner(v)),
    }
}

/// Decides whether the solution in the arrays is sound, with the verdict of `pg_check::check`; a cycle has at most as many vertices as
/// the game. It fails with the first fault of the game; then with `SolutionLengths`; then with the first bad winner; then with the first
/// bad choice; or with `OutOfMemory`.
pub fn check(
    alloc: Global,
    arrays: &Arrays,
    winners: &[u8],
    strategy: &[u32],
) -> Result<Verdict, ArraysFault>
    ensures spelled { OnOk result (SpellsSolution (arrays_of arrays.now) winners.now strategy.now) }
    ensures wins { IfOk result
        (λ verdict. IsWins verdict ↔ IsSound (game_of (arrays_of arrays.now)) (solution_of winners.now strategy.now)) }
    ensures refutes { IfOk result (Refutes (game_of (arrays_of arrays.now)) (solution_of winners.now strategy.now)) }
    ensures cycle { IfOk result (KeepsCycle (length arrays.now.priorities.now)) }
    ensures fault { IfErr result (RefusesCheck (arrays_of arrays.now) winners.now strategy.now) }
{
    examine(arrays)?;
    examine_solution(arrays, winners, strategy)?;
    let game = build(alloc, arrays)?;
    let solution = read(alloc, &game, winners, strategy)?;
    if let Some(v) = bad_choice(&game, &solution) {
        return Err(ArraysFault::BadChoice(v));
    }
    let Ok(verdict) = pg_check::check(alloc, &game, &solution) else {
        return Err(ArraysFault::OutOfMemory);
    };
    Ok(verdict)
}
