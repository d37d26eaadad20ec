//! Solving games.

ghost use Rattle.std.specs.Prelude.{◌≡◌, ◌≢◌};
ghost use Rattle.parsolve_c_csr.specs.Games.{arrays_of};
ghost use Rattle.parsolve_c_csr.specs.Faults.{RefusesSolve};
ghost use Rattle.parsolve_c.specs.Codes.{IsTold};
ghost use Rattle.parsolve_c.specs.Answers.{IsSolved};

use crate::code::{PARSOLVE_OK, tell_fault};
use parsolve_c_csr::{Arrays, solve};
use std::alloc::Global;

/// Solves a game. `PARSOLVE_OK`: `winners` and `strategy` hold a sound solution of the game that the arrays spell. Otherwise it returns
/// the code of the first fault; `vertex` holds the vertex that the fault names, if it names one, and nothing else was written.
#[unsafe(no_mangle)]
pub extern "C" fn parsolve_solve(
    alloc: Global,
    game: &Arrays,
    winners: &mut [u8],
    strategy: &mut [u32],
    vertex: &mut u32,
) -> u32
    ensures solved { result ≡ PARSOLVE_OK → IsSolved (arrays_of game.now) winners.new strategy.new }
    ensures refused { result ≢ PARSOLVE_OK
        → IsTold (RefusesSolve (arrays_of game.now) winners.old strategy.old) result vertex.old vertex.new }
    ensures winners { result ≢ PARSOLVE_OK → winners.new ≡ winners.old }
    ensures strategy { result ≢ PARSOLVE_OK → strategy.new ≡ strategy.old }
    ensures vertex { result ≡ PARSOLVE_OK → vertex.new ≡ vertex.old }
{
    match solve(alloc, game, winners, strategy) {
        Ok(()) => PARSOLVE_OK,
        Err(fault) => tell_fault(fault, vertex),
    }
}
