//! Links in memory, without and with a limit of rounds, and links in memory with one call that fails.

use crate::tools::{game, solves, solves_within};
use pg_coord::MemoryLink;
use pg_coord_links_tests::stand_ins::{Broken, FailsOnce};
use std::alloc::Global;
use std::test::Fail;

#[test]
fn a_link_in_memory_does_the_lifting(rt: HostRuntime) -> Result<(), Fail> {
    let game = game(rt.alloc())?;
    let mut links = [MemoryLink::new(rt.alloc())?];
    assert!(rt; solves(rt.alloc(), &game, &mut links, 4096)? == Some((2, 0, 0)));
    Ok(())
}

/// Whether rounds over these links are given up at once. The links can still be used, and one round in which measures rise
/// is enough.
fn are_given_up_at_once(alloc: Global, links: &mut [MemoryLink]) -> Result<bool, Fail> {
    let game = game(alloc)?;
    let is_given_up = solves_within(alloc, &game, links, 0)?.is_none();
    Ok(is_given_up && solves_within(alloc, &game, links, 1)? == Some((2, 0, 0)))
}

#[test]
fn rounds_are_given_up_past_their_limit(rt: HostRuntime) -> Result<(), Fail> {
    let mut links = [MemoryLink::new(rt.alloc())?];
    assert!(rt; are_given_up_at_once(rt.alloc(), &mut links)?);
    Ok(())
}

#[test]
fn rounds_without_links_are_given_up_where_there_is_a_limit(rt: HostRuntime) -> Result<(), Fail> {
    let mut links: [Broken; 0] = [];
    assert!(rt; solves_within(rt.alloc(), &game(rt.alloc())?, &mut links, 1)?.is_none());
    Ok(())
}

/// Two links in memory, where the n-th call of the first is Failed.
fn failing_links(alloc: Global, n: u64) -> Result<[FailsOnce<MemoryLink>; 2], Fail> {
    let first = MemoryLink::new(alloc)?;
    let second = MemoryLink::new(alloc)?;
    Ok([FailsOnce::new(first, n), FailsOnce::new(second, u64::MAX)])
}

/// Solves over the links with one lift a turn. Returns whether a call of the first one was Failed.
fn fails(alloc: Global, links: &mut [FailsOnce<MemoryLink>; 2]) -> Result<bool, Fail> {
    let solved = solves(alloc, &game(alloc)?, links, 1)?;
    let failed = links[0].has_failed();
    match solved {
        Some((_, restarts, 0)) if restarts == u64::from(failed) => Ok(failed),
        _ => Err("not solved".into()),
    }
}

/// Solves over two links in memory where the n-th call of the first one is Failed. Returns whether that call was made.
fn fails_at(alloc: Global, n: u64) -> Result<bool, Fail> {
    let mut links = failing_links(alloc, n)?;
    fails(alloc, &mut links)
}

#[test]
fn each_call_may_fail(rt: HostRuntime) -> Result<(), Fail> {
    for n in 0..1000 {
        if !fails_at(rt.alloc(), n)? {
            assert!(rt; 10 < n);
            return Ok(());
        }
    }
    Err("some call fails for ever".into())
}
