//! Solutions that come with an order meant to show that they are sound.

ghost use Rattle.std.specs.Prelude.{◌≡◌, ◌<◌, length};
ghost use Rattle.std.specs.Bool.{OnTrue};
ghost use Rattle.pg_check.specs.Soundness.{IsSoundSolution};
ghost use Rattle.pg_check.specs.Mirrors.Orders.{GoesOn, IsOnSide};

use crate::edges::counted;
use crate::order::{Order, stands};
use pg_arena::{Game, Player, Vertex};
use pg_check_order::are_nested;
use pg_text::Solution;

/// Whether a place is on the side of a player: before the split for Even, and from the split on for Odd.
#[inline(always)]
fn is_on_side(split: u32, player: Player, place: u32) -> bool
    ensures { OnTrue result (IsOnSide split player place) }
{
    match player {
        Player::Even => place < split,
        Player::Odd => split <= place,
    }
}

/// Whether the winner of a vertex goes on there as it should: the vertex stands on the winner's side; at least one edge counts, and
/// all that count lead to that side; and where the loser owns the vertex, there is no choice.
#[inline(always)]
fn goes_on(game: &Game, solution: &Solution, order: &Order, split: u32, v: Vertex) -> bool
    requires whole { length solution.now ≡ length game.now }
    requires places { length order.now.places.items ≡ length game.now }
    requires within { v < length game.now }
    ensures { OnTrue result (GoesOn game.now solution.now order.now.places.items split v) }
{
    let _count = game.len();
    let winner = solution.winner(v);
    if !is_on_side(split, winner, order.place(v)) {
        return false;
    }
    if game.owner(v) != winner && solution.choice(v).is_some() {
        return false;
    }
    let edges = counted(game, solution, v);
    if edges.is_empty() {
        return false;
    }
    for w in edges {
        if !is_on_side(split, winner, order.place(*w)) {
            return false;
        }
    }
    true
}

/// Whether an order shows that a solution is sound and has a choice exactly where the winner owns the vertex. What Even wins must
/// stand before the split, so that the place of a successor shows its winner. Each vertex is visited once, with its edges.
pub(crate) fn is_shown(game: &Game, solution: &Solution, order: &Order, split: u32) -> bool
    requires { length solution.now ≡ length game.now }
    ensures { OnTrue result (IsSoundSolution game.now solution.now) }
{
    if order.places.len() != game.len() || !are_nested(&order.spans, Player::Even) {
        return false;
    }
    for number in 0..game.len() as u32 {
        let v = Vertex(number);
        if !stands(game, solution, order, v) || !goes_on(game, solution, order, split, v) {
            return false;
        }
    }
    true
}
