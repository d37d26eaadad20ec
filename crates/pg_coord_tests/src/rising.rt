//! Solves a game in which few vertices rise: workers lift these in one round.

use pg_arena::{Game, GameBuilder, Player};
use pg_coord::{MemoryLink, solve};
use pg_worker::Cut;
use std::alloc::Global;
use std::test::Fail;

/// `parity 7; 0 1 0 0,1; 1 0 0 1; 2 0 1 0,1;` and five vertices of priority 2 that Even owns and that lead to vertex 1. The
/// measure of vertex 0 rises to `1`, and so does that of vertex 2; the others stay at `0`.
fn calm_game(alloc: Global) -> Result<Game, Fail> {
    let mut builder = GameBuilder::new(alloc);
    builder.add(0, 1, Player::Even, &[0, 1], None)?;
    builder.add(1, 0, Player::Even, &[1], None)?;
    builder.add(2, 0, Player::Odd, &[0, 1], None)?;
    for vertex in 3..8 {
        builder.add(vertex, 2, Player::Even, &[1], None)?;
    }
    Ok(builder.finish()?)
}

/// Links in memory are honest, so the contract of `solve` says that the measures are these.
#[test]
fn the_vertices_that_rise_do_so_in_one_round(rt: HostRuntime) -> Result<(), Fail> {
    let alloc = rt.alloc();
    let game = calm_game(alloc)?;
    let cut = Cut::even(alloc, 8, 2)?;
    let mut links = [MemoryLink::new(alloc)?, MemoryLink::new(alloc)?];
    let solved = solve(alloc, &game, &mut links, &cut, 4096)?;
    assert_eq!(rt; solved.rounds, 2);
    Ok(())
}
