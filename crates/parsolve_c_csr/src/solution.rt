//! Solutions in arrays.

ghost use Rattle.std.specs.Prelude.{◌≡◌, ◌<◌, ◌≤◌, ℕ, length, All, IfSome, IfOk};
ghost use Rattle.pg_text.specs.Solutions.{choice};
ghost use Rattle.parsolve_c_csr.specs.Games.{player_of};
ghost use Rattle.parsolve_c_csr.specs.Solutions.{choice_of, solution_of};

use crate::build::player_of;
use pg_arena::{Game, Player, Vertex};
use pg_text::Solution;
use std::alloc::{AllocError, Global};

/// The number in a strategy for a vertex without a choice.
pub const NO_CHOICE: u32 = 4_294_967_295;

/// Returns the number of a player.
fn number_of(player: Player) -> u8
    ensures known { player_of result ≡ player }
    ensures small { result ≤ 1 }
{
    match player {
        Player::Even => 0,
        Player::Odd => 1,
    }
}

/// Returns the number of a choice.
fn number_of_choice(choice: Option<Vertex>) -> u32
    requires { IfSome choice (λ w. w < NO_CHOICE) }
    ensures { choice_of result ≡ choice }
{
    match choice {
        Some(w) => w.0,
        None => NO_CHOICE,
    }
}

/// Writes a solution into arrays.
pub(crate) fn write(solution: &Solution, winners: &mut [u8], strategy: &mut [u32])
    requires winners { length winners.old ≡ length solution.now }
    requires strategy { length strategy.old ≡ length solution.now }
    requires few { length solution.now < NO_CHOICE }
    requires choices { (v : ℕ) → v < length solution.now → IfSome (choice solution.now v) (λ w. w < NO_CHOICE) }
    ensures solution { solution_of winners.new strategy.new ≡ solution.now }
    ensures players { All (λ w. w ≤ 1) winners.new }
{
    for v in 0..solution.len() as u32 {
        let at = v as usize;
        winners[at] = number_of(solution.winner(Vertex(v)));
        strategy[at] = number_of_choice(solution.choice(Vertex(v)));
    }
}

/// Returns the choice of a number.
fn choice_of(number: u32) -> Option<Vertex>
    ensures { result ≡ choice_of number }
{
    if number == NO_CHOICE {
        None
    } else {
        Some(Vertex(number))
    }
}

/// Reads a solution from arrays.
pub(crate) fn read(
    alloc: Global,
    game: &Game,
    winners: &[u8],
    strategy: &[u32],
) -> Result<Solution, AllocError>
    requires winners { length winners.now ≡ length game.now }
    requires strategy { length strategy.now ≡ length game.now }
    ensures { IfOk result (λ solution. solution ≡ solution_of winners.now strategy.now) }
{
    let mut solution = Solution::new(alloc, game)?;
    for v in 0..game.len() as u32 {
        let at = v as usize;
        let winner = player_of(winners[at]);
        solution.set(Vertex(v), winner, choice_of(strategy[at]));
    }
    Ok(solution)
}
