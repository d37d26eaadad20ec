//! Checking solutions.

ghost use Rattle.std.specs.Prelude.{◌≡◌, ◌≢◌};
ghost use Rattle.parsolve_c_csr.specs.Games.{arrays_of};
ghost use Rattle.parsolve_c_csr.specs.Faults.{RefusesCheck};
ghost use Rattle.parsolve_c.specs.Codes.{IsTold};
ghost use Rattle.parsolve_c.specs.Answers.{IsFoundSound, Leaves, HasCycle};
ghost use Rattle.parsolve_c.specs.Mirrors.Verdicts.{Tells};

use crate::code::{PARSOLVE_CYCLE, PARSOLVE_LEAVES, PARSOLVE_OK, tell_fault};
use crate::copying::copy_vertices;
use parsolve_c_csr::{Arrays, check};
use pg_check::Verdict;
use std::alloc::Global;

/// The evidence against a solution.
#[repr(C)]
#[derive(Clone, Copy)]
pub struct ParsolveFound {
    /// The vertex that a fault names, or the source of an edge to a vertex with another winner.
    pub vertex: u32,
    /// The target of that edge.
    pub to: u32,
    /// The number of vertices in the cycle.
    pub length: usize,
}

/// Writes a verdict into `found` and `cycle`, and returns its code.
fn tell(verdict: &Verdict, found: &mut ParsolveFound, cycle: &mut [u32]) -> u32
    ensures { Tells verdict.now result found.old found.new cycle.old cycle.new }
{
    match verdict {
        Verdict::Wins => PARSOLVE_OK,
        Verdict::Leaves(from, to) => {
            found.vertex = from.0;
            found.to = to.0;
            PARSOLVE_LEAVES
        }
        Verdict::BadCycle(vertices) => {
            found.length = vertices.len();
            if vertices.len() <= cycle.len() {
                copy_vertices(vertices, cycle);
            }
            PARSOLVE_CYCLE
        }
    }
}

/// Checks a solution, no matter which solver made it. `PARSOLVE_OK` if and only if it is sound. `PARSOLVE_LEAVES`: `found.vertex` and
/// `found.to` are the least edge that leads to a vertex with another winner. `PARSOLVE_CYCLE`: its winner loses a cycle of `found.length`
/// vertices, which is at the start of `cycle` if it fits, as it does if `cycle` has a number for each vertex. Otherwise the code of the
/// first fault; `found.vertex` is the vertex that the fault names, if it names one.
#[unsafe(no_mangle)]
pub extern "C" fn parsolve_check(
    alloc: Global,
    game: &Arrays,
    winners: &[u8],
    strategy: &[u32],
    found: &mut ParsolveFound,
    cycle: &mut [u32],
) -> u32
    ensures sound { result ≡ PARSOLVE_OK → IsFoundSound (arrays_of game.now) winners.now strategy.now }
    ensures leaves { result ≡ PARSOLVE_LEAVES
        → Leaves (arrays_of game.now) winners.now strategy.now found.new }
    ensures cycle { result ≡ PARSOLVE_CYCLE
        → HasCycle (arrays_of game.now) winners.now strategy.now found.new cycle.old cycle.new }
    ensures refused { result ≢ PARSOLVE_OK → result ≢ PARSOLVE_LEAVES → result ≢ PARSOLVE_CYCLE
        → IsTold (RefusesCheck (arrays_of game.now) winners.now strategy.now) result found.old.vertex found.new.vertex }
    ensures kept { result ≢ PARSOLVE_CYCLE → cycle.new ≡ cycle.old }
    ensures nothing { result ≡ PARSOLVE_OK → found.new ≡ found.old }
    ensures edge_alone { result ≢ PARSOLVE_CYCLE → found.new.length ≡ found.old.length }
    ensures vertex_alone { result ≢ PARSOLVE_LEAVES → found.new.to ≡ found.old.to }
    ensures cycle_alone { result ≡ PARSOLVE_CYCLE → found.new.vertex ≡ found.old.vertex }
{
    match check(alloc, game, winners, strategy) {
        Ok(verdict) => tell(&verdict, found, cycle),
        Err(fault) => tell_fault(fault, &mut found.vertex),
    }
}
