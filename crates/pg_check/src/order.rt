//! Whether an order of the vertices shows that there is no bad cycle.
//!
//! Each vertex has a height, which is odd where the vertex is lost, and stands at a place, where others may stand too. Edges that
//! count lead from a place to places before its end. So if the spans of the places are nested, who should win the cycles does win
//! them.

ghost use Rattle.std.specs.Prelude.{◌≡◌, ◌%◌, ◌<◌, ◌≤◌, length, slice_index};
ghost use Rattle.std.specs.Bool.{OnTrue};
ghost use Rattle.pg_check_order.specs.Orders.{span_at};
ghost use Rattle.pg_check.specs.Mirrors.Orders.{height_at, Stands, IsOrder};

use crate::edges::counted;
use pg_arena::{Game, Player, Vertex};
use pg_check_order::{Span, are_nested};
use pg_text::Solution;

/// The place of each vertex, and the span of each place.
#[derive(Drop)]
pub(crate) struct Order {
    pub places: Vec<u32>,
    pub spans: Vec<Span>,
}

impl Order {
    /// Returns the place of a vertex.
    #[inline(always)]
    pub fn place(&self, v: Vertex) -> u32
        requires { v < length self.now.places.items }
        ensures { result ≡ slice_index self.now.places.items v }
    {
        self.places[v.0 as usize]
    }

    /// Returns the span of a place. Past the last place, its priority and its end are 0.
    #[inline(always)]
    fn span(&self, place: u32) -> Span
        ensures { result ≡ span_at self.now.spans.items place }
    {
        self.spans.get(place as usize).copied().unwrap_or(Span {
            priority: 0,
            end: 0,
        })
    }
}

/// Returns the height of a vertex, which is even where its priority is one of the winner's.
#[inline(always)]
pub(crate) fn height(game: &Game, solution: &Solution, v: Vertex) -> u32
    requires whole { length solution.now ≡ length game.now }
    requires within { v < length game.now }
    ensures { result ≡ height_at game.now solution.now v }
{
    let _count = game.len();
    let raised = match solution.winner(v) {
        Player::Even => 2,
        Player::Odd => 1,
    };
    game.priority(v) + raised
}

/// Whether a vertex of this height may stand at a place with this priority, which is the height, or at most the height if that is
/// even.
#[inline(always)]
fn is_said_of(priority: u32, height: u32) -> bool
    ensures low { OnTrue result (priority ≤ height) }
    ensures odd { OnTrue result (height % 2 ≡ 1 → priority ≡ height) }
{
    if height % 2 == 1 {
        priority == height
    } else {
        priority <= height
    }
}

/// Whether a vertex stands as it should: the priority of its place suits its height, and edges that count lead before the end of
/// its place.
#[inline(always)]
pub(crate) fn stands(game: &Game, solution: &Solution, order: &Order, v: Vertex) -> bool
    requires whole { length solution.now ≡ length game.now }
    requires places { length order.now.places.items ≡ length game.now }
    requires within { v < length game.now }
    ensures { OnTrue result (Stands game.now solution.now order.now.places.items order.now.spans.items v) }
{
    let _count = game.len();
    let span = order.span(order.place(v));
    if !is_said_of(span.priority, height(game, solution, v)) {
        return false;
    }
    for w in counted(game, solution, v) {
        if order.place(*w) >= span.end {
            return false;
        }
    }
    true
}

/// Whether the order shows that there is no bad cycle.
pub(crate) fn is_order(game: &Game, solution: &Solution, order: &Order) -> bool
    requires { length solution.now ≡ length game.now }
    ensures { OnTrue result (IsOrder game.now solution.now order.now.places.items order.now.spans.items) }
{
    if order.places.len() != game.len() || !are_nested(&order.spans, Player::Even) {
        return false;
    }
    for number in 0..game.len() as u32 {
        if !stands(game, solution, order, Vertex(number)) {
            return false;
        }
    }
    true
}
