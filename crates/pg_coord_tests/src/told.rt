//! A link that tells its replies: their values are taken, though they are more than the least progress measure.

use crate::tools::solves;
use pg_arena::{Game, GameBuilder, Player};
use pg_coord_links_tests::stand_ins::Told;
use std::alloc::Global;
use std::test::Fail;

/// Top for both vertices.
const BOTH: [u8; 23] = [
    0, 0, 0, 19, 3, 0, 0, 0, 1, 0, 0, 0, 2, 0, 0, 0, 0, 1, 0, 0, 0, 1, 1,
];

/// Top for vertex 0.
const FIRST: [u8; 18] = [0, 0, 0, 14, 3, 0, 0, 0, 1, 0, 0, 0, 1, 0, 0, 0, 0, 1];

/// Top for vertex 1.
const SECOND: [u8; 18] = [0, 0, 0, 14, 3, 0, 0, 0, 1, 0, 0, 0, 1, 0, 0, 0, 1, 1];

/// The report that ends a reply: there is more to lift.
const MORE: [u8; 7] = [0, 0, 0, 3, 5, 0, 0];

/// The frames that a link tells, one after another, and the number of restarts if both vertices rise to top by them. There
/// is one restart if the last reply was handed over before that.
static TOLD: [(&[&[u8]], u64); 3] = [
    (&[&BOTH, &MORE, &BOTH, &MORE], 0),
    (&[&FIRST, &SECOND, &MORE, &MORE], 0),
    (&[&BOTH, &MORE], 1),
];

/// The second game.
fn second_game(alloc: Global) -> Result<Game, Fail> {
    let mut builder = GameBuilder::new(alloc);
    builder.add(0, 1, Player::Even, &[0, 1], None)?;
    builder.add(1, 2, Player::Odd, &[0], None)?;
    Ok(builder.finish()?)
}

/// Returns the numbers of rounds, restarts and links given up over a link that tells these frames, if both vertices rise to
/// top.
fn solves_told(alloc: Global, frames: &[&[u8]]) -> Result<Option<(u64, u64, u64)>, Fail> {
    let mut replies = Vec::new(alloc);
    for frame in frames {
        replies.push(Vec::from_slice(alloc, frame)?)?;
    }
    let mut links = [Told::new(alloc, replies)];
    solves(alloc, &second_game(alloc)?, &mut links, 4096)
}

#[test]
fn what_is_told_is_taken(rt: HostRuntime) -> Result<(), Fail> {
    for (frames, restarts) in &TOLD {
        assert!(rt; solves_told(rt.alloc(), *frames)? == Some((2, *restarts, 0)));
    }
    Ok(())
}
