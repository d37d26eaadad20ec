//! Solves without links, and over links that don't help: by rounds of passes over all vertices.

use crate::tools::{game, solves};
use pg_arena::{Game, GameBuilder, Player};
use pg_coord::solve;
use pg_coord_links_tests::stand_ins::{Broken, Fixed};
use pg_worker::Cut;
use std::alloc::Global;
use std::test::Fail;

/// Makes a chain of a hundred vertices of Even: each leads to the next one, and the last one, which has the only odd
/// priority, to itself.
fn chain(alloc: Global) -> Result<Game, Fail> {
    let mut builder = GameBuilder::new(alloc);
    for number in 0..99 {
        builder.add(number, 0, Player::Even, &[number + 1], None)?;
    }
    builder.add(99, 1, Player::Even, &[99], None)?;
    Ok(builder.finish()?)
}

/// In the first round the last vertex rises to 1; in the next round it rises to top while the one before it rises to 1, and
/// so on. The first vertex rises to top in round 101, and nothing rises in round 102.
#[test]
fn a_chain_falls_against_the_order(rt: HostRuntime) -> Result<(), Fail> {
    let game = chain(rt.alloc())?;
    let cut = Cut::even(rt.alloc(), 100, 0)?;
    let mut links: [Broken; 0] = [];
    let solved = solve(rt.alloc(), &game, &mut links, &cut, 4096)?;
    assert_eq!(rt; solved.rounds, 102);
    Ok(())
}

#[test]
fn solves_without_links(rt: HostRuntime) -> Result<(), Fail> {
    let mut links: [Broken; 0] = [];
    assert!(rt; solves(rt.alloc(), &game(rt.alloc())?, &mut links, 4096)? == Some((5, 0, 0)));
    Ok(())
}

#[test]
fn solves_over_a_link_that_is_quiet_at_once(rt: HostRuntime) -> Result<(), Fail> {
    let alloc = rt.alloc();
    let quiet = Vec::from_slice(alloc, &[0, 0, 0, 3, 5, 1, 0])?;
    let mut links = [Fixed::new(alloc, vec![in alloc; quiet]?, 1)];
    assert!(rt; solves(alloc, &game(alloc)?, &mut links, 4096)? == Some((5, 0, 0)));
    Ok(())
}

#[test]
fn solves_over_a_link_whose_calls_fail(rt: HostRuntime) -> Result<(), Fail> {
    let mut links = [Broken::new()];
    assert!(rt; solves(rt.alloc(), &game(rt.alloc())?, &mut links, 4096)? == Some((5, 3, 1)));
    Ok(())
}
