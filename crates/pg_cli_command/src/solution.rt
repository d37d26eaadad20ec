//! Solves games by the maps that a solver finds.

ghost use Rattle.std.specs.Prelude.{IfOk, IfErr};
ghost use Rattle.pg_arena.specs.Games.{HasPrioritiesUpTo};
ghost use Rattle.pg_text.specs.Solutions.{IsSolution};
ghost use Rattle.pg_check.specs.Soundness.{IsSound, IsSoundSolution};
ghost use Rattle.pg_cli_command.specs.Solving.{IsSolvedBy};
ghost use Rattle.pg_cli_command.specs.Mirrors.Unsolved.{IsUnsolved};

use crate::fault::CliFault;
use crate::solver::Solver;
use pg_arena::Game;
use pg_check::{find_solution, strategies};
use pg_text::Solution;
use std::alloc::Global;

/// Returns the solution that a map of a game and a map of its dual give. The solver finds both maps.
pub(crate) fn solution_of<F: Solver>(
    alloc: Global,
    game: &Game,
    solver: &mut F,
) -> Result<Solution, CliFault>
    requires { HasPrioritiesUpTo 65535 game.now }
    ensures solved { IfOk result (IsSolvedBy (F.finds solver.old) game.now) }
    ensures solution { IfOk result (IsSolution game.now) }
    ensures sound { IfOk result (IsSound game.now) }
    ensures refused { IfErr result (IsUnsolved (F.finds solver.old) game.now) }
{
    let maps = solver.solve(alloc, game)?;
    Ok(strategies(alloc, game, &maps.of_game, &maps.of_dual)?)
}

/// Returns a sound solution of a game: one that is found at once, if there is one, and otherwise the solution that a map of the game and a
/// map of its dual give.
pub(crate) fn any_solution_of<F: Solver>(
    alloc: Global,
    game: &Game,
    solver: &mut F,
) -> Result<Solution, CliFault>
    requires { HasPrioritiesUpTo 65535 game.now }
    ensures sound { IfOk result (IsSoundSolution game.now) }
    ensures refused { IfErr result (IsUnsolved (F.finds solver.old) game.now) }
{
    match find_solution(alloc, game)? {
        Some(solution) => Ok(solution),
        None => solution_of(alloc, game, solver),
    }
}
