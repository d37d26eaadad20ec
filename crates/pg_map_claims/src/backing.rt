//! The check of one claim.

ghost use Rattle.std.specs.Prelude.{◌≡◌, ◌<◌, length, All, Any};
ghost use Rattle.std.specs.Bool.{OnTrue};
ghost use Rattle.pg_map.specs.Lines.{AreWithin};
ghost use Rattle.pg_map_claims.specs.Mirrors.Backing.{Backs, IsGoodClaim};

use crate::claim::{Claim, Claims, place_from};
use pg_arena::{Player, Vertex};
use pg_map::Lines;
use pg_map_ranks::Ladder;

/// Whether `w` backs a claim: it needs no claim itself, is known to have top, or has a claim of at least the rank `low` before the
/// place `end`.
#[inline]
fn backs(claims: &Claims, known: &[bool], guess: usize, low: u32, end: u32, w: Vertex) -> bool
    requires { w < length known.now }
    ensures { OnTrue result (Backs claims.now known.now low end w) }
{
    if low == 0 {
        return true;
    }
    match place_from(claims, guess, low, w) {
        Some(place) if place < end => true,
        _ => known[w.0 as usize],
    }
}

/// Whether one of the vertices backs the claim.
fn one_backs(
    claims: &Claims,
    known: &[bool],
    guess: usize,
    low: u32,
    end: u32,
    vertices: &[Vertex],
) -> bool
    requires { All (λ w. w < length known.now) vertices.now }
    ensures { OnTrue result (Any (Backs claims.now known.now low end) vertices.now) }
{
    for w in vertices {
        if backs(claims, known, guess, low, end, *w) {
            return true;
        }
    }
    false
}

/// Whether all of the vertices back the claim.
fn all_back(
    claims: &Claims,
    known: &[bool],
    guess: usize,
    low: u32,
    end: u32,
    vertices: &[Vertex],
) -> bool
    requires { All (λ w. w < length known.now) vertices.now }
    ensures { OnTrue result (All (Backs claims.now known.now low end) vertices.now) }
{
    for w in vertices {
        if !backs(claims, known, guess, low, end, *w) {
            return false;
        }
    }
    true
}

/// Checks a claim: its place has the priority of its vertex, and all successors back the claim if Even owns the vertex, or one if
/// Odd does. The claims of a successor are searched around a guess of how many of them stand before the one that is needed.
pub(crate) fn is_good_claim<G: Lines>(
    lines: &G,
    ladder: &Ladder,
    claims: &Claims,
    known: &[bool],
    guess: usize,
    claim: Claim,
) -> bool
    requires { AreWithin (length known.now) (G.line lines.now) }
    ensures { OnTrue result (IsGoodClaim (G.line lines.now) ladder.now claims.now known.now claim) }
{
    let v = claim.vertex;
    let place = claim.place as usize;
    if !lines.holds(v) || place >= claims.spans.len() {
        return false;
    }
    let priority = lines.priority(v);
    let span = claims.spans[place];
    if span.priority != priority {
        return false;
    }
    let low = ladder.low_of(priority, claim.rank);
    let successors = lines.successors(v);
    match lines.owner(v) {
        Player::Even => all_back(claims, known, guess, low, span.end, successors),
        Player::Odd => one_backs(claims, known, guess, low, span.end, successors),
    }
}
