//! Solutions of maps, how they are certified and checked, and solutions that are found at once. The rows of `check` and
//! `tests/checks.py` show more verdicts.

ghost use Rattle.std.specs.Prelude.{◌≡◌, length};
ghost use Rattle.pg_arena.specs.Games.{dual};
ghost use Rattle.pg_text.specs.Solutions.{IsSolution};

use crate::tools::{Line, game_of, is_closed, least_map, three};
use pg_arena::Player::{Even, Odd};
use pg_arena::{Game, dual};
use pg_check::{CheckFault, Verdict, certifies, check, check_with, find_solution, strategies};
use pg_map::MeasureMap;
use pg_text::Solution;
use std::alloc::Global;
use std::test::Fail;

/// Whether the solution wins, and the maps certify it.
fn is_certified(
    alloc: Global,
    game: &Game,
    solution: &Solution,
    even: &MeasureMap,
    odd: &MeasureMap,
) -> bool
    requires solution { IsSolution game.now solution.now }
    requires even_size { length even.now.measures ≡ length game.now }
    requires odd_size { length odd.now.measures ≡ length game.now }
{
    let verdict = check_with(alloc, game, solution, even, odd);
    certifies(game, solution, even, odd) && matches!(&verdict, Ok(Verdict::Wins))
}

/// Whether the solution wins.
fn wins(alloc: Global, game: &Game, solution: &Solution) -> bool
    requires { IsSolution game.now solution.now }
{
    let verdict = check(alloc, game, solution);
    matches!(&verdict, Ok(Verdict::Wins))
}

/// Whether the maps of a game and of its dual are closed, and give a solution that they certify and that wins.
fn give_what_wins(
    alloc: Global,
    game: &Game,
    other: &Game,
    even: &MeasureMap,
    odd: &MeasureMap,
) -> bool
    requires { other.now ≡ dual game.now }
{
    if !is_closed(even, game) || !is_closed(odd, other) || odd.len() != even.len() {
        return false;
    }
    match strategies(alloc, game, even, odd) {
        Ok(solution) => {
            is_certified(alloc, game, &solution, even, odd) && wins(alloc, game, &solution)
        }
        Err(_) => false,
    }
}

#[test]
fn least_maps_give_and_certify_a_solution_that_wins(rt: HostRuntime) -> Result<(), Fail> {
    let game = three(rt.alloc())?;
    let other = dual(rt.alloc(), &game)?;
    let even = least_map(rt.alloc(), &game)?;
    let odd = least_map(rt.alloc(), &other)?;
    assert!(rt; give_what_wins(rt.alloc(), &game, &other, &even, &odd));
    Ok(())
}

/// A game in which each player wins somewhere, and one in which all priorities are Odd's.
#[test]
fn solutions_are_found_at_once(rt: HostRuntime) -> Result<(), Fail> {
    let game = three(rt.alloc())?;
    assert!(rt; find_solution(rt.alloc(), &game)?.is_some());
    let odd = game_of(
        rt.alloc(),
        &[Line(0, 1, Even, &[1]), Line(1, 3, Odd, &[0, 1])],
    )?;
    assert!(rt; find_solution(rt.alloc(), &odd)?.is_some());
    Ok(())
}

#[test]
fn faults_have_their_texts(rt: HostRuntime) -> Result<(), Fail> {
    let memory = format!(in rt.alloc(); "{}", CheckFault::OutOfMemory)?;
    assert_eq!(rt; memory.as_str(), "out of memory");
    let undecided = format!(in rt.alloc(); "{}", CheckFault::Undecided(4_000_000_000))?;
    assert_eq!(rt; undecided.as_str(), "undecided at 4000000000");
    Ok(())
}
