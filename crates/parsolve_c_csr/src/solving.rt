//! Solving games in arrays, with the solutions in arrays.

ghost use Rattle.std.specs.Prelude.{◌≡◌, ◌<◌, ℕ, length, None, OnOk, OnErr, IfOk, IfErr};
ghost use Rattle.pg_arena.specs.Games.{owner};
ghost use Rattle.pg_text.specs.Solutions.{IsSolution, loser, choice};
ghost use Rattle.pg_check.specs.Soundness.{IsSound};
ghost use Rattle.pg_check.specs.declared.fault.CheckFault.{CheckFault};
ghost use Rattle.parsolve_c_csr.specs.Games.{SpellsGame, arrays_of, game_of};
ghost use Rattle.parsolve_c_csr.specs.Solutions.{Solves};
ghost use Rattle.parsolve_c_csr.specs.Faults.{RefusesSolve};

use crate::arrays::Arrays;
use crate::build::{build, examine};
use crate::fault::ArraysFault;
use crate::solution::write;
use pg_arena::Game;
use pg_check::{CheckFault, find_solution, strategies};
use pg_search::propose;
use pg_text::Solution;
use std::alloc::Global;

/// Returns a sound solution of a game, which has no choice where the loser owns the vertex: one that is found at once, or else the
/// solution by the least progress measures.
fn solution_of(alloc: Global, game: &Game) -> Result<Solution, CheckFault>
    ensures choices { IfOk result (IsSolution game.now) }
    ensures elsewhere { IfOk result (λ s. (v : ℕ) → v < length game.now → owner game.now v ≡ loser s v → choice s v ≡ None) }
    ensures sound { IfOk result (IsSound game.now) }
    ensures fault { IfErr result (λ fault. fault ≡ CheckFault.OutOfMemory) }
{
    pg_check_determined::laws::never_undecided();
    // called only for what its contract says about the game
    let _vertices = game.len();
    if let Some(solution) = find_solution(alloc, game)? {
        return Ok(solution);
    }
    let proposals = propose(alloc, game)?;
    let maps = pg_solver::solve(alloc, game, proposals)?;
    strategies(alloc, game, &maps.of_game, &maps.of_dual)
}

/// Writes a sound solution of the game that the arrays spell: the winner of each vertex, 0 or 1, and the successor that the winner
/// chooses if it owns the vertex, or else `NO_CHOICE`. It fails with the first fault of the game; then with `SolutionLengths` if the
/// outputs aren't as long as there are vertices; or with `OutOfMemory`. If it fails, it has written nothing.
pub fn solve(
    alloc: Global,
    arrays: &Arrays,
    winners: &mut [u8],
    strategy: &mut [u32],
) -> Result<(), ArraysFault>
    ensures spelled { OnOk result (SpellsGame (arrays_of arrays.now)) }
    ensures solved { OnOk result (Solves (game_of (arrays_of arrays.now)) winners.new strategy.new) }
    ensures fault { IfErr result (RefusesSolve (arrays_of arrays.now) winners.old strategy.old) }
    ensures winners { OnErr result (winners.new ≡ winners.old) }
    ensures strategy { OnErr result (strategy.new ≡ strategy.old) }
{
    examine(arrays)?;
    let count = arrays.priorities.len();
    if winners.len() != count || strategy.len() != count {
        return Err(ArraysFault::SolutionLengths);
    }
    let game = build(alloc, arrays)?;
    // called only for what its contract says about the game
    let _vertices = game.len();
    // no vertex is undecided, so it fails only if memory runs out
    let Ok(solution) = solution_of(alloc, &game) else {
        return Err(ArraysFault::OutOfMemory);
    };
    write(&solution, winners, strategy);
    Ok(())
}
