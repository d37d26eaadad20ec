//! Links to workers in memory, on the game `parity 1; 0 1 0 0; 1 3 0 0;`, whose measures are top at both vertices.

use pg_coord::{Link, LinkFault, MemoryLink, halt};
use std::alloc::Global;
use std::test::Fail;

/// The set-up of either version, the lines of both vertices, and a budget.
const SETUP: &str = "0000001a 01 01 00000002 00000002 00000003 00000001 00000001 00000001";

const SETUP_2: &str = "0000001a 01 02 00000002 00000002 00000003 00000001 00000001 00000001";

const LINES: &str =
    "00000027 02 00000002 00000000 00000001 00 00000001 00000000 00000001 00000003 00 00000001 00000000";

const GO: &str = "00000005 04 00001000";

/// Top for both vertices, and the report that there is nothing more to lift.
const VALUES: &str = "00000013 03 00000002 00000002 00000000 01 00000001 01";

const QUIET: &str = "00000003 05 01 00";

/// The reports of a frame that was out of turn, and of an unknown version.
const ORDER: &str = "00000003 05 02 04";

const VERSION: &str = "00000003 05 02 12";

fn bytes_of(alloc: Global, text: &str) -> Result<Vec<u8>, Fail> {
    let mut bytes = Vec::new(alloc);
    for part in text.split(' ') {
        bytes.extend_from_slice(&hex::decode(alloc, part)?)?;
    }
    Ok(bytes)
}

/// Sends these frames, one after another.
fn send(alloc: Global, link: &mut MemoryLink, frames: &[&str]) -> Result<(), Fail> {
    for frame in frames {
        link.send(&bytes_of(alloc, frame)?)?;
    }
    Ok(())
}

/// Whether the link hands over these frames, one after another, and then none.
fn hands_over(alloc: Global, link: &mut MemoryLink, frames: &[&str]) -> Result<bool, Fail> {
    let mut received = Vec::new(alloc);
    for frame in frames {
        link.receive(&mut received)?;
        if received.as_slice() != bytes_of(alloc, frame)?.as_slice() {
            return Ok(false);
        }
    }
    Ok(link.receive(&mut received) == Err(LinkFault::Failed))
}

/// Whether the link refuses a set-up of version 2, and answers as a worker once it was restarted.
fn answers_anew(alloc: Global, link: &mut MemoryLink) -> Result<bool, Fail> {
    send(alloc, link, &[SETUP_2])?;
    let is_refused = hands_over(alloc, link, &[VERSION])?;
    link.restart()?;
    send(alloc, link, &[SETUP, LINES, GO])?;
    Ok(is_refused && hands_over(alloc, link, &[VALUES, QUIET])?)
}

#[test]
fn hands_over_a_refusal_and_once_restarted_the_values(rt: HostRuntime) -> Result<(), Fail> {
    let mut link = MemoryLink::limited(rt.alloc(), 1)?;
    assert!(rt; answers_anew(rt.alloc(), &mut link)?);
    Ok(())
}

#[test]
fn halt_ends_each_worker(rt: HostRuntime) -> Result<(), Fail> {
    let alloc = rt.alloc();
    let mut links = [MemoryLink::new(alloc)?, MemoryLink::new(alloc)?];
    for link in links.iter_mut() {
        send(alloc, link, &[SETUP, LINES])?;
    }
    halt(&mut links);
    for link in links.iter_mut() {
        send(alloc, link, &[GO])?;
        assert!(rt; hands_over(alloc, link, &[ORDER])?);
    }
    Ok(())
}
