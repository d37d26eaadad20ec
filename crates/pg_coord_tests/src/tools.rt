//! The game, and the numbers of rounds, restarts and links given up until it is solved.

use pg_arena::{Game, GameBuilder, Player, Vertex};
use pg_coord::{Link, Solved, solve, solve_within};
use pg_map::View;
use pg_worker::Cut;
use std::alloc::Global;
use std::test::Fail;

/// Makes the game.
pub fn game(alloc: Global) -> Result<Game, Fail> {
    let mut builder = GameBuilder::new(alloc);
    for (vertex, priority) in [(0, 1), (1, 3)] {
        builder.add(vertex, priority, Player::Even, &[0], None)?;
    }
    Ok(builder.finish()?)
}

/// Returns the numbers of rounds, restarts and links given up, if the map is top at both vertices.
fn counts(solved: &Solved) -> Option<(u64, u64, u64)> {
    let map = &solved.map;
    if map.len() == 2 && map.get(Vertex(0)) == View::Top && map.get(Vertex(1)) == View::Top {
        Some((solved.rounds, solved.restarts, solved.abandoned))
    } else {
        None
    }
}

/// Solves a game of two vertices over these links, cut evenly. Returns the numbers of rounds, restarts and links given up,
/// if the map is top at both vertices.
pub fn solves<L: Link>(
    alloc: Global,
    game: &Game,
    links: &mut [L],
    budget: u32,
) -> Result<Option<(u64, u64, u64)>, Fail> {
    let cut = Cut::even(alloc, 2, u32::try_from(links.len())?)?;
    let solved = solve(alloc, game, links, &cut, budget)?;
    Ok(counts(&solved))
}

/// Solves as `solves` does, but with a limit of rounds in which measures rise. Also returns None if the rounds are given
/// up.
pub fn solves_within<L: Link>(
    alloc: Global,
    game: &Game,
    links: &mut [L],
    limit: u64,
) -> Result<Option<(u64, u64, u64)>, Fail> {
    let cut = Cut::even(alloc, 2, u32::try_from(links.len())?)?;
    let solved = solve_within(alloc, game, links, &cut, 4096, limit)?;
    Ok(match &solved {
        Some(solved) => counts(solved),
        None => None,
    })
}
