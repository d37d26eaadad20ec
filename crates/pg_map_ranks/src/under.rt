//! Ranks below a limit.

ghost use Rattle.std.specs.Prelude.{◌↔◌, ◌<◌, length, All, Any, IfSome, IfNone, IsSome, IsTrue};
ghost use Rattle.pg_map.specs.Lines.{AreWithin, line_at};
ghost use Rattle.pg_map.specs.Maps.{SomeOrAll};
ghost use Rattle.pg_map_ranks.specs.Mirrors.Blocks.{rank_at, IsUnder, IsFirstUnder};

use pg_arena::{Player, Vertex};
use pg_map::Lines;

/// Whether a rank is below the limit, if there is one.
#[inline(always)]
pub(crate) fn is_under(high: Option<u32>, rank: u32) -> bool
    ensures { IsTrue result ↔ IsUnder high rank }
{
    match high {
        None => true,
        Some(high) => rank < high,
    }
}

/// Whether one of the vertices has a rank below the limit.
fn one_under(ranks: &[u32], vertices: &[Vertex], high: Option<u32>) -> bool
    requires { All (λ w. w < length ranks.now) vertices.now }
    ensures { IsTrue result ↔ Any (λ w. IsUnder high (rank_at ranks.now w)) vertices.now }
{
    for w in vertices {
        if is_under(high, ranks[w.0 as usize]) {
            return true;
        }
    }
    false
}

/// Whether all of the vertices have ranks below the limit.
fn all_under(ranks: &[u32], vertices: &[Vertex], high: Option<u32>) -> bool
    requires { All (λ w. w < length ranks.now) vertices.now }
    ensures { IsTrue result ↔ All (λ w. IsUnder high (rank_at ranks.now w)) vertices.now }
{
    for w in vertices {
        if !is_under(high, ranks[w.0 as usize]) {
            return false;
        }
    }
    true
}

/// Returns the first of the vertices that has a rank below the limit.
pub(crate) fn first_under(ranks: &[u32], vertices: &[Vertex], high: Option<u32>) -> Option<Vertex>
    requires { All (λ w. w < length ranks.now) vertices.now }
    ensures first { IfSome result (IsFirstUnder ranks.now vertices.now high) }
    ensures none { IfNone result (All (λ w. ¬ IsUnder high (rank_at ranks.now w)) vertices.now) }
{
    for w in vertices {
        if is_under(high, ranks[w.0 as usize]) {
            return Some(*w);
        }
    }
    None
}

/// Whether some successor of a vertex of Even, or all successors of a vertex of Odd, have ranks below the limit.
pub(crate) fn has_under<G: Lines>(lines: &G, ranks: &[u32], v: Vertex, high: Option<u32>) -> bool
    requires within { AreWithin (length ranks.now) (G.line lines.now) }
    requires held { IsSome (G.line lines.now v) }
    ensures { IsTrue result ↔ SomeOrAll (line_at (G.line lines.now) v).owner (λ w. IsUnder high (rank_at ranks.now w))
        (line_at (G.line lines.now) v).successors }
{
    match lines.owner(v) {
        Player::Even => one_under(ranks, lines.successors(v), high),
        Player::Odd => all_under(ranks, lines.successors(v), high),
    }
}
