//! Claims, and the search for them.

ghost use Rattle.std.specs.Prelude.{IfSome};
ghost use Rattle.pg_map_claims.specs.Mirrors.Backing.{IsClaimFrom};

use pg_arena::Vertex;
use pg_check_order::Span;

/// The claim that each closed map has at least the measure of this rank at the vertex. It stands at a place in the order of the
/// claims.
#[derive(Clone, Copy)]
pub struct Claim {
    pub vertex: Vertex,
    pub rank: u32,
    pub place: u32,
}

/// Claims, and the order meant to show that Odd wins the cycles of claims that lead to one another.
#[derive(Drop)]
pub struct Claims {
    /// The claims. Those of a vertex stand together, by rising rank.
    pub claims: Vec<Claim>,
    /// The index of the first claim of each vertex that has one; any number for the others.
    pub firsts: Vec<u32>,
    /// For each place, the priority of the vertex of the claim that stands there, and the place before which the claims that it
    /// leads to stand.
    pub spans: Vec<Span>,
}

/// Returns where the first claim of `w` of at least a rank stands, if the claims stand as they should: the caller has to check. It
/// is searched around a guess of how many claims of `w` stand before it.
fn seek(claims: &[Claim], first: usize, guess: usize, w: Vertex, low: u32) -> usize {
    if first >= claims.len() || claims[first].rank >= low {
        return first;
    }
    let rest = &claims[first..];
    let is_less = |claim: &Claim| claim.vertex == w && claim.rank < low;
    let mut reach = 1usize;
    for _ in 0..16 {
        let from = guess.saturating_sub(reach).min(rest.len());
        let to = guess.saturating_add(reach).min(rest.len());
        let is_behind = from == 0 || is_less(&rest[from - 1]);
        if is_behind && (to == rest.len() || !is_less(&rest[to])) {
            return first + from + rest[from..to].partition_point(is_less);
        }
        reach = reach.saturating_mul(4);
    }
    first + rest.partition_point(is_less)
}

/// Returns the place of a claim of `w` of at least a rank, if one is found.
#[inline]
pub(crate) fn place_from(claims: &Claims, guess: usize, low: u32, w: Vertex) -> Option<u32>
    ensures { IfSome result (IsClaimFrom claims.now low w) }
{
    let first = *claims.firsts.get(w.0 as usize)? as usize;
    let found = claims
        .claims
        .get(seek(&claims.claims, first, guess, w, low))?;
    if found.vertex == w && found.rank >= low {
        Some(found.place)
    } else {
        None
    }
}
