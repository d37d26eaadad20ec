//! The commands `solve` and `solve --any`.

ghost use Rattle.std.specs.Prelude.{◌≡◌, IfOk, IfErr};
ghost use Rattle.pg_text.specs.Solutions.{IsSolution};
ghost use Rattle.pg_text.specs.SolutionLayout.{solution_text};
ghost use Rattle.pg_cli_command.specs.Solving.{IsSolved, IsSolvedAnyhow, RefusesSolve};
ghost use Rattle.pg_cli_command.specs.Mirrors.Working.{ShowsWhat, Fails};

use crate::fault::CliFault;
use crate::printing::CommandAnswer;
use crate::solution::{any_solution_of, solution_of};
use crate::solver::Solver;
use pg_arena::Game;
use pg_text::{Solution, read_game, write_solution};
use std::alloc::Global;
use std::io::Write;

/// A game and a solution of it.
#[derive(Drop)]
pub(crate) struct SolvedGame {
    game: Game,
    solution: Solution,
}

impl CommandAnswer for SolvedGame {
    ghost is_whole = { λ a. IsSolution a.game a.solution };

    ghost shows = { λ a output. output ≡ solution_text a.game a.solution };

    fn write<W: Write>(self, writer: &mut W) -> Option<()> {
        write_solution(&self.game, &self.solution, writer).ok()
    }
}

/// Solves the game that a text spells, by a map of the game and a map of its dual. Frees the text before the work begins.
pub(crate) fn solve<F: Solver>(
    alloc: Global,
    text: Vec<u8>,
    solver: &mut F,
) -> Result<SolvedGame, CliFault>
    ensures whole { IfOk result ⟦<SolvedGame as CommandAnswer>⟧.is_whole }
    ensures answer { IfOk result (ShowsWhat (IsSolved (F.finds solver.old) text.items) ⟦<SolvedGame as CommandAnswer>⟧.shows) }
    ensures refused { IfErr result (Fails (RefusesSolve (F.finds solver.old) text.items)) }
{
    let game = read_game(alloc, &text)?;
    // called only for what its contract says about the game
    let _vertices = game.len();
    drop(text);
    let solution = solution_of(alloc, &game, solver)?;
    Ok(SolvedGame { game, solution })
}

/// Returns a sound solution, whichever is found, of the game that a text spells. Frees the text before the work begins.
pub(crate) fn solve_any<F: Solver>(
    alloc: Global,
    text: Vec<u8>,
    solver: &mut F,
) -> Result<SolvedGame, CliFault>
    ensures whole { IfOk result ⟦<SolvedGame as CommandAnswer>⟧.is_whole }
    ensures answer { IfOk result (ShowsWhat (IsSolvedAnyhow text.items) ⟦<SolvedGame as CommandAnswer>⟧.shows) }
    ensures refused { IfErr result (Fails (RefusesSolve (F.finds solver.old) text.items)) }
{
    let game = read_game(alloc, &text)?;
    // called only for what its contract says about the game
    let _vertices = game.len();
    drop(text);
    let solution = any_solution_of(alloc, &game, solver)?;
    Ok(SolvedGame { game, solution })
}
