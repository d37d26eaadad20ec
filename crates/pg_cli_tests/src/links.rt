//! Games solved over links: honest ones, and others that answer as they like.

ghost use Rattle.std.specs.Prelude.{◌≤◌, length};

use pg_cli::{CliFault, Command, exit_code, run_with};
use pg_coord::{Link, MemoryLink};
use pg_coord_links_tests::stand_ins::{Broken, Fixed, Told};
use std::alloc::Global;
use std::test::Fail;

/// Even leaves the vertex with priority 1 through the vertex with priority 2.
const TWO: &[u8] = b"parity 1;\n0 1 0 0,1;\n1 2 1 0;\n";

/// By single lifts, vertex 0 goes through `0,1`, `1,0` and `1,1` to top.
const ODD: &[u8] = b"parity 1;\n0 1 0 0;\n1 3 0 0;\n";

/// Each player wins somewhere; the one odd priority is 1, and in the dual there are two.
const THREE: &[u8] = b"parity 2;\n0 0 1 0,1;\n1 1 1 1,2 \"odd\";\n2 2 0 0,2;\n";

/// The solution of `THREE`.
const WON: &[u8] = b"paritysol 2;\n0 1 1;\n1 1 1;\n2 0 2;\n";

/// The controller sets its proposition in every other step, beginning with the first.
const TURNS: &[u8] =
    b"HOA: v1 Start: 0 AP: 1 \"g\" controllable-AP: 0 Acceptance: 1 Inf(0) --BODY-- \
State: 0 [0] 1 {0} State: 1 [!0] 0 {0} --END--";

/// The circuit for `TURNS`: the next value of the latch is its negation, and so is the output.
const CIRCUIT: &[u8] = b"REALIZABLE\naag 1 0 1 1 0\n2 3\n3\no0 g\n";

/// A frame of values of width 1: top for the vertices 0 and 1.
const TOP: &[u8] = &[
    0, 0, 0, 19, 3, 0, 0, 0, 1, 0, 0, 0, 2, 0, 0, 0, 0, 1, 0, 0, 0, 1, 1,
];

/// Each vertex leads to itself alone; Even wins at the first two, and Odd at the third. The width is 1, in the dual too.
const LOOPS: &[u8] = b"parity 9;\n3 2 0 3;\n5 2 0 5;\n9 1 0 9;\n";

/// A frame of values of width 1: top for the vertices 1 and 2.
const LATER: &[u8] = &[
    0, 0, 0, 19, 3, 0, 0, 0, 1, 0, 0, 0, 2, 0, 0, 0, 1, 1, 0, 0, 0, 2, 1,
];

/// A frame of values of width 1: the list `1` for the vertex 2.
const ONE: &[u8] = &[
    0, 0, 0, 18, 3, 0, 0, 0, 1, 0, 0, 0, 1, 0, 0, 0, 2, 0, 0, 0, 0, 1,
];

/// A frame without values, of width 1.
const NONE: &[u8] = &[0, 0, 0, 9, 3, 0, 0, 0, 1, 0, 0, 0, 0];

/// The report of a worker that has nothing to lift.
const QUIET: &[u8] = &[0, 0, 0, 3, 5, 1, 0];

/// Runs a command on a text over these links, and returns the result and the output.
fn answer<L: Link>(
    alloc: Global,
    command: Command,
    text: &[u8],
    links: &mut [L],
) -> (Result<(), CliFault>, Vec<u8>)
    requires { length links.old ≤ 16 }
{
    let mut input = text;
    let mut output = Vec::new(alloc);
    let done = run_with(alloc, command, links, &mut input, &mut output);
    (done, output)
}

/// Whether a command answers a text over these links with these bytes.
fn answers_over<L: Link>(
    alloc: Global,
    command: Command,
    text: &[u8],
    links: &mut [L],
    expected: &[u8],
) -> bool
    requires { length links.old ≤ 16 }
{
    let (done, output) = answer(alloc, command, text, links);
    done.is_ok() && output.as_slice() == expected
}

/// Whether `solve` leaves the vertex with this identifier undecided over these links: it says so, writes nothing, and ends with status 3.
fn leaves_undecided<L: Link>(alloc: Global, text: &[u8], links: &mut [L], identifier: u32) -> bool
    requires { length links.old ≤ 16 }
{
    let (done, output) = answer(alloc, Command::Solve { workers: 0 }, text, links);
    match &done {
        Ok(()) => false,
        Err(fault) => {
            matches!(fault, CliFault::Undecided(id) if *id == identifier)
                && exit_code(fault) == 3
                && output.is_empty()
        }
    }
}

/// Returns two frames, one after the other.
fn frames(alloc: Global, first: &[u8], last: &[u8]) -> Result<Vec<Vec<u8>>, Fail> {
    let (first, last) = (
        Vec::from_slice(alloc, first)?,
        Vec::from_slice(alloc, last)?,
    );
    Ok(vec![in alloc; first, last]?)
}

/// Returns a link that answers every Go with these values, and with the report that it is quiet.
fn sends(alloc: Global, values: &[u8]) -> Result<Fixed, Fail> {
    Ok(Fixed::new(alloc, frames(alloc, values, QUIET)?, 1))
}

/// The second link is to a worker that takes only version 1.
#[test]
fn links_in_memory_may_be_given(rt: HostRuntime) -> Result<(), Fail> {
    let alloc = rt.alloc();
    let mut links = [MemoryLink::new(alloc)?, MemoryLink::limited(alloc, 1)?];
    let solve = Command::Solve { workers: 7 };
    assert!(rt; answers_over(alloc, solve, THREE, &mut links, WON));
    let measure = Command::Measure { workers: 0 };
    assert!(rt; answers_over(alloc, measure, ODD, &mut links, b"0 T;\n1 T;\n"));
    Ok(())
}

#[test]
fn a_link_that_sends_top_is_believed_by_measure(rt: HostRuntime) -> Result<(), Fail> {
    let alloc = rt.alloc();
    let mut links = [sends(alloc, TOP)?];
    let measure = Command::Measure { workers: 0 };
    assert!(rt; answers_over(alloc, measure, TWO, &mut links, b"0 T;\n1 T;\n"));
    Ok(())
}

#[test]
fn a_link_that_tells_no_values_leaves_the_lifting(rt: HostRuntime) -> Result<(), Fail> {
    let alloc = rt.alloc();
    let mut links = [Told::new(alloc, frames(alloc, NONE, QUIET)?)];
    let measure = Command::Measure { workers: 0 };
    assert!(rt; answers_over(alloc, measure, TWO, &mut links, b"0 1;\n1 0;\n"));
    Ok(())
}

/// The first vertex stays at zero in the game, and goes to top only in the dual. The second vertex is reported to be at top in the game,
/// and goes there in the dual. The third vertex goes to top in the game. In the dual it is reported to be there by the link that reports
/// the same in each turn; the other link reports nothing in the dual.
#[test]
fn the_least_vertex_where_both_maps_are_top_is_named(rt: HostRuntime) -> Result<(), Fail> {
    let alloc = rt.alloc();
    let mut sending = [sends(alloc, LATER)?];
    assert!(rt; leaves_undecided(alloc, LOOPS, &mut sending, 5));
    let mut telling = [Told::new(alloc, frames(alloc, LATER, QUIET)?)];
    assert!(rt; leaves_undecided(alloc, LOOPS, &mut telling, 5));
    Ok(())
}

/// In the dual the width is wrong, so the link is given up there.
#[test]
fn a_value_above_the_least_one_still_solves(rt: HostRuntime) -> Result<(), Fail> {
    let alloc = rt.alloc();
    let mut links = [sends(alloc, ONE)?];
    let measure = Command::Measure { workers: 0 };
    assert!(rt; answers_over(alloc, measure, THREE, &mut links, b"0 T;\n1 T;\n2 1;\n"));
    let solve = Command::Solve { workers: 0 };
    assert!(rt; answers_over(alloc, solve, THREE, &mut links, WON));
    Ok(())
}

#[test]
fn links_whose_calls_fail_change_nothing(rt: HostRuntime) {
    let alloc = rt.alloc();
    let mut links = [Broken::new(), Broken::new(), Broken::new()];
    let solve = Command::Solve { workers: 0 };
    assert!(rt; answers_over(alloc, solve, THREE, &mut links, WON));
    let synth = Command::Synth { workers: 0 };
    assert!(rt; answers_over(alloc, synth, TURNS, &mut links, CIRCUIT));
}
