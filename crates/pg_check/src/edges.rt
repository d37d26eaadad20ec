//! The edges that count in a solution.

ghost use Rattle.std.specs.Prelude.{◌≡◌, ◌↔◌, ℕ, ◌<◌, length, Contains, IfSome, IfNone};
ghost use Rattle.std.specs.List.Sorted.{IsStrictlyIncreasing};
ghost use Rattle.pg_arena.specs.Games.{IsGame};
ghost use Rattle.pg_check.specs.Soundness.{Counts, NoneLeaves};
ghost use Rattle.pg_check.specs.Verdicts.{IsLeastLeaving};

use pg_arena::{Game, Vertex};
use pg_text::Solution;

/// Returns the part of the vertices that is `chosen` alone, or an empty part if it isn't among them.
#[inline(always)]
fn only<'a>(vertices: &'a [Vertex], chosen: Vertex) -> &'a [Vertex]
    ensures chosen { (w : ℕ) → Contains result.now w ↔ (Contains vertices.now w × w ≡ chosen) }
    ensures rising { IsStrictlyIncreasing result.now }
{
    for (place, w) in vertices.iter().enumerate() {
        if *w == chosen {
            return &vertices[place..place + 1];
        }
    }
    &vertices[..0]
}

/// Returns where the edges that count lead from `v`, in rising order: to all successors if the loser owns `v`, and otherwise to the
/// choice.
pub(crate) fn counted<'a>(game: &'a Game, solution: &Solution, v: Vertex) -> &'a [Vertex]
    requires whole { length solution.now ≡ length game.now }
    requires within { v < length game.now }
    ensures counted { (w : ℕ) → Contains result.now w ↔ Counts game.now solution.now v w }
    ensures rising { IsGame game.now → IsStrictlyIncreasing result.now }
{
    let successors = game.successors(v);
    if game.owner(v) != solution.winner(v) {
        return successors;
    }
    match solution.choice(v) {
        Some(chosen) => only(successors, chosen),
        None => &successors[..0],
    }
}

/// Returns the least edge that counts and joins vertices with different winners, if there is one.
pub(crate) fn first_leaving(game: &Game, solution: &Solution) -> Option<(Vertex, Vertex)>
    requires { length solution.now ≡ length game.now }
    ensures none { IfNone result (NoneLeaves game.now solution.now) }
    ensures some { IfSome result (λ e. IsLeastLeaving game.now solution.now e.0 e.1) }
{
    for number in 0..game.len() as u32 {
        let v = Vertex(number);
        for w in counted(game, solution, v) {
            if solution.winner(*w) != solution.winner(v) {
                return Some((v, *w));
            }
        }
    }
    None
}
