//! Finds sound solutions: it proposes winners, choices and an order, and then checks them.

ghost use Rattle.std.specs.Prelude.{◌≡◌, ◌<◌, length, IfOk, IfSome};
ghost use Rattle.std.specs.Bool.{OnTrue};
ghost use Rattle.pg_arena.specs.Games.{HasParityOf};
ghost use Rattle.pg_check.specs.Soundness.{IsSoundSolution};
ghost use Rattle.pg_check.specs.Mirrors.Orders.{AllHaveParityOf, IsAnyChoice};

use crate::order::Order;
use crate::shown::is_shown;
use pg_arena::{Game, Player, Vertex};
use pg_search_components::at;
use pg_search_winners::{Graph, WinningOrder, find_order};
use pg_text::Solution;
use std::alloc::{AllocError, Global};

/// A solution, and an order meant to show that it is sound, in which what Even wins stands before the split.
#[derive(Drop)]
struct Ordered {
    solution: Solution,
    order: Order,
    split: u32,
}

/// Whether a priority is one of the player's.
fn has_parity_of(player: Player, priority: u32) -> bool
    ensures { OnTrue result (HasParityOf player priority) }
{
    match player {
        Player::Even => priority % 2 == 0,
        Player::Odd => priority % 2 == 1,
    }
}

/// Whether all priorities are the player's.
fn has_all(game: &Game, player: Player) -> bool
    ensures { OnTrue result (AllHaveParityOf player game.now) }
{
    for number in 0..game.len() as u32 {
        if !has_parity_of(player, game.priority(Vertex(number))) {
            return false;
        }
    }
    true
}

/// Returns the player whose parity all priorities have, if there is one.
fn winner_of_all(game: &Game) -> Option<Player>
    ensures { IfSome result (λ player. AllHaveParityOf player game.now) }
{
    if has_all(game, Player::Even) {
        Some(Player::Even)
    } else if has_all(game, Player::Odd) {
        Some(Player::Odd)
    } else {
        None
    }
}

/// Returns the first successor if the player owns the vertex.
fn first_choice(game: &Game, player: Player, v: Vertex) -> Option<Vertex>
    requires { v < length game.now }
    ensures { IsAnyChoice game.now player v result }
{
    let _count = game.len();
    if game.owner(v) != player {
        return None;
    }
    game.successors(v).first().copied()
}

/// Returns a solution of a game in which all priorities are one player's: that player wins everywhere, by whatever successors.
fn won_by(alloc: Global, game: &Game, winner: Player) -> Result<Solution, AllocError>
    requires { AllHaveParityOf winner game.now }
    ensures { IfOk result (IsSoundSolution game.now) }
{
    let mut solution = Solution::new(alloc, game)?;
    for number in 0..game.len() as u32 {
        let v = Vertex(number);
        solution.set(v, winner, first_choice(game, winner, v));
    }
    Ok(solution)
}

/// Returns the solution of the winners that were found, with their order.
fn solved_by(alloc: Global, game: &Game, found: WinningOrder) -> Result<Ordered, AllocError>
    ensures { IfOk result (λ o. length o.solution ≡ length game.now) }
{
    let WinningOrder {
        places,
        spans,
        split,
        choices,
    } = found;
    let mut solution = Solution::new(alloc, game)?;
    for number in 0..game.len() as u32 {
        let v = Vertex(number);
        let winner = if at(&places, number) < split {
            Player::Even
        } else {
            Player::Odd
        };
        let choice = (game.owner(v) == winner).then_some(Vertex(at(&choices, number)));
        solution.set(v, winner, choice);
    }
    let order = Order { places, spans };
    Ok(Ordered {
        solution,
        order,
        split,
    })
}

/// Proposes a solution of a game, with an order.
fn propose(alloc: Global, game: &Game) -> Result<Ordered, AllocError>
    ensures { IfOk result (λ o. length o.solution ≡ length game.now) }
{
    let graph = Graph::of(alloc, game)?;
    solved_by(alloc, game, find_order(alloc, graph)?)
}

/// Finds a sound solution of a game; the contract doesn't say which one. It has a choice at a vertex if and only if the winner owns
/// the vertex. Returns `None` if the proposal turns out to be wrong; no game is known for which that happens. It fails only if
/// memory runs out.
pub fn find_solution(alloc: Global, game: &Game) -> Result<Option<Solution>, AllocError>
    ensures { IfOk result (λ found. IfSome found (IsSoundSolution game.now)) }
{
    if let Some(winner) = winner_of_all(game) {
        return Ok(Some(won_by(alloc, game, winner)?));
    }
    let Ordered {
        solution,
        order,
        split,
    } = propose(alloc, game)?;
    if is_shown(game, &solution, &order, split) {
        Ok(Some(solution))
    } else {
        Ok(None)
    }
}
