//! Replies that are failures: each time the link is restarted, three times in all, and then given up.

use crate::tools::{game, solves};
use pg_coord_links_tests::stand_ins::Fixed;
use std::alloc::Global;
use std::test::Fail;

/// What is wrong with a frame that answers a Go, the frame, and the number of times that it does so.
static REPLIES: [(&str, &[u8], usize); 6] = [
    (
        "a set-up is no reply",
        &[
            0, 0, 0, 26, 1, 1, 0, 0, 0, 2, 0, 0, 0, 2, 0, 0, 0, 3, 0, 0, 0, 1, 0, 0, 0, 1, 0, 0, 0,
            1,
        ],
        1,
    ),
    (
        "a vertex past the last is of no part",
        &[0, 0, 0, 14, 3, 0, 0, 0, 2, 0, 0, 0, 1, 0, 0, 0, 2, 1],
        1,
    ),
    ("another width", &[0, 0, 0, 9, 3, 0, 0, 0, 1, 0, 0, 0, 0], 1),
    ("a refusal", &[0, 0, 0, 3, 5, 2, 1], 1),
    (
        "too many frames",
        &[0, 0, 0, 9, 3, 0, 0, 0, 2, 0, 0, 0, 0],
        65_537,
    ),
    (
        "values of the other version",
        &[0, 0, 0, 9, 7, 0, 0, 0, 2, 0, 0, 0, 0],
        1,
    ),
];

/// Whether a link that answers every Go with this frame, `times` times, is restarted three times and given up.
fn is_given_up(alloc: Global, frame: &[u8], times: usize) -> Result<bool, Fail> {
    let bytes = Vec::from_slice(alloc, frame)?;
    let mut links = [Fixed::new(alloc, vec![in alloc; bytes]?, times)];
    Ok(solves(alloc, &game(alloc)?, &mut links, 4096)? == Some((5, 3, 1)))
}

#[test]
fn links_with_such_replies_are_given_up(rt: HostRuntime) -> Result<(), Fail> {
    for (wrong, frame, times) in &REPLIES {
        assert!(rt; is_given_up(rt.alloc(), frame, *times)?, "{wrong}");
    }
    Ok(())
}
