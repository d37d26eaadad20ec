//! Replies to a set-up of version 2: one report accepts it, one refuses it, and every other one is a failure of the link.

use crate::tools::{game, solves};
use pg_coord::{Link, LinkFault};
use std::alloc::Global;
use std::test::Fail;

/// The report of a worker that has nothing to lift.
const QUIET: [u8; 7] = [0, 0, 0, 3, 5, 1, 0];

/// The kind of a set-up.
const SETUP: u8 = 1;

/// Answers a set-up with a report of its own, and everything else with the report of a worker that has nothing to lift. It
/// is never Failed.
#[derive(Drop)]
struct Answering {
    report: [u8; 7],
    is_setup: bool,
}

impl Link for Answering {
    ghost use Rattle.std.specs.Prelude.{⊤, None};

    ghost failures = { λ _. 0 };

    ghost is_honest = { λ _. ⊥ };

    ghost is_under = { λ _ _. ⊥ };

    ghost is_anew = { λ _. ⊤ };

    ghost told = { λ _. None };

    fn send(&mut self, frame: &[u8]) -> Result<(), LinkFault> {
        self.is_setup = frame.get(4) == Some(&SETUP);
        Ok(())
    }

    fn receive(&mut self, frame: &mut Vec<u8>) -> Result<(), LinkFault> {
        let reply = if self.is_setup { self.report } else { QUIET };
        frame.clear();
        Ok(frame.extend_from_slice(&reply)?)
    }

    fn restart(&mut self) -> Result<(), LinkFault> {
        Ok(())
    }
}

/// Reports by status and code, and the numbers of rounds, restarts and links given up over a link that answers a set-up
/// with them.
static REPORTS: [(u8, u8, (u64, u64, u64)); 5] = [
    (1, 0, (5, 0, 0)),
    (2, 18, (5, 0, 0)),
    (2, 5, (5, 3, 1)),
    (1, 18, (5, 3, 1)),
    (0, 0, (5, 3, 1)),
];

/// Returns the numbers of rounds, restarts and links given up over a link that answers a set-up with this report.
fn solves_answered(alloc: Global, status: u8, code: u8) -> Result<Option<(u64, u64, u64)>, Fail> {
    let mut links = [Answering {
        report: [0, 0, 0, 3, 5, status, code],
        is_setup: false,
    }];
    solves(alloc, &game(alloc)?, &mut links, 4096)
}

#[test]
fn what_neither_takes_nor_refuses_version_2_fails(rt: HostRuntime) -> Result<(), Fail> {
    for (status, code, counts) in &REPORTS {
        assert!(rt; solves_answered(rt.alloc(), *status, *code)? == Some(*counts));
    }
    Ok(())
}
