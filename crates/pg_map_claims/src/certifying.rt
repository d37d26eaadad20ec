//! Certificates that a map of ranks is the least progress measure.

ghost use Rattle.std.specs.Prelude.{◌≡◌, ◌^◌, ◌<◌, length};
ghost use Rattle.std.specs.Bool.{OnTrue};
ghost use Rattle.pg_map.specs.Lines.{AreWithin};
ghost use Rattle.pg_map.specs.Maps.{IsNeverAbove, IsLeastProgressMeasure};
ghost use Rattle.pg_map_claims.specs.Known.{known_map};
ghost use Rattle.pg_map_claims.specs.Mirrors.Backing.{AreGoodClaims, AreRanksClaimed};

use crate::Claims;
use crate::backing::is_good_claim;
use crate::claim::place_from;
use pg_arena::{Player, Vertex};
use pg_check_order::are_nested;
use pg_map::{Lines, Measures};
use pg_map_ranks::{Ladder, RankMap};

/// Checks each claim. The guess is that as many claims of a successor stand before the one that is needed as claims of this vertex
/// stand before this claim.
fn are_good_claims<G: Lines>(lines: &G, ladder: &Ladder, claims: &Claims, known: &[bool]) -> bool
    requires { AreWithin (length known.now) (G.line lines.now) }
    ensures { OnTrue result (AreGoodClaims (G.line lines.now) ladder.now claims.now known.now) }
{
    for number in 0..claims.claims.len() {
        let claim = claims.claims[number];
        let first = claims.firsts.get(claim.vertex.0 as usize).copied();
        let guess = number.saturating_sub(first.unwrap_or(0) as usize);
        if !is_good_claim(lines, ladder, claims, known, guess, claim) {
            return false;
        }
    }
    true
}

/// Whether each vertex has the rank 0, or is known, or has a claim of at least its rank.
fn are_ranks_claimed(claims: &Claims, known: &[bool], ranks: &[u32]) -> bool
    requires each { length known.now ≡ length ranks.now }
    requires few { length ranks.now < 2 ^ 32 }
    ensures { OnTrue result (AreRanksClaimed claims.now known.now ranks.now) }
{
    for v in 0..ranks.len() {
        if ranks[v] > 0
            && !known[v]
            && place_from(claims, 0, ranks[v], Vertex(v as u32)).is_none()
        {
            return false;
        }
    }
    true
}

/// Whether the claims show that the map is never above: if true, the map is at most every closed map. Every closed map must have
/// top at the vertices that are known. Each successor is looked at once for each claim.
pub fn is_never_above<G: Lines>(lines: &G, map: &RankMap, claims: &Claims, known: &[bool]) -> bool
    requires within { AreWithin (length map.now.measures) (G.line lines.now) }
    requires each { length known.now ≡ length map.now.measures }
    requires known { IsNeverAbove map.now.bounds (G.line lines.now) (known_map map.now.bounds known.now) }
    ensures { OnTrue result (IsNeverAbove map.now.bounds (G.line lines.now) map.now.measures) }
{
    let (ladder, ranks) = map.parts();
    let _bounds = ladder.bounds();
    if !are_nested(&claims.spans, Player::Odd) || !are_ranks_claimed(claims, known, ranks) {
        return false;
    }
    are_good_claims(lines, ladder, claims, known)
}

/// Whether the claims show that the map is the least progress measure: if true, it is. Every closed map must have top at the
/// vertices that are known.
pub fn certifies<G: Lines>(lines: &G, map: &RankMap, claims: &Claims, known: &[bool]) -> bool
    requires within { AreWithin (length map.now.measures) (G.line lines.now) }
    requires each { length known.now ≡ length map.now.measures }
    requires known { IsNeverAbove map.now.bounds (G.line lines.now) (known_map map.now.bounds known.now) }
    ensures { OnTrue result (IsLeastProgressMeasure map.now.bounds (length map.now.measures) (G.line lines.now) map.now.measures) }
{
    let _count = map.len();
    map.is_closed(lines) && is_never_above(lines, map, claims, known)
}
