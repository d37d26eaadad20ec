//! Prints how the least progress measures of a game on standard input are found, once for `measure` and once for `solve`:
//! whether the search's proposal is certified, or the game must be lifted. It exists only for `tests/certified.py`.
#![tactic(auto)]

use pg_arena::Game;
use pg_search::{propose, propose_measure};
use pg_solver::{Found, measure, solve};
use pg_text::read_game;
use std::alloc::{AllocError, Global};
use std::io::{self, Read};

/// Returns how a map was found: `certified` or `lifted`.
fn way(map: &Found) -> &'static str {
    match map {
        Found::Ranks(_) => "certified",
        Found::Rows(_) => "lifted",
    }
}

/// Returns how the map of a game alone is found.
fn way_of_measure(alloc: Global, game: &Game) -> Result<&'static str, AllocError> {
    let proposal = propose_measure(alloc, game)?;
    Ok(way(&measure(alloc, game, proposal)?))
}

/// Returns how the maps of a game and of its dual are found: both in the same way.
fn way_of_solve(alloc: Global, game: &Game) -> Result<&'static str, AllocError> {
    let proposals = propose(alloc, game)?;
    Ok(way(&solve(alloc, game, proposals)?.of_game))
}

fn main(rt: HostRuntime) -> io::Result<()> {
    let alloc = rt.alloc();
    let mut text = Vec::new(alloc);
    rt.reader().read_to_end(&mut text)?;
    let Ok(game) = read_game(alloc, &text) else {
        return println!(rt; "no game");
    };
    println!(rt; "measure {}", way_of_measure(alloc, &game)?)?;
    println!(rt; "solve {}", way_of_solve(alloc, &game)?)
}
