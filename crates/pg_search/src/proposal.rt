//! Proposals of least maps: a ladder, ranks, and claims.

use crate::ladder::RowLadder;
use crate::one_parity::propose_at_once;
use crate::region::WonRegion;
use crate::search::find;
use pg_arena::{Game, Player, Vertex};
use pg_map_claims::{Claim, Claims, Proposal, Proposals, Span};
use pg_search_components::{NONE, at, count, put};
use pg_search_rows::{RowClaim, Side, TOP, ZEROS};
use pg_search_winners::{Graph, find_winners};
use std::alloc::{AllocError, Global};

/// How often lowering and ways may look at each vertex and edge; `LOOKS_OF_FEW` is how much more often in all.
const LOOKS: u64 = 64;

const LOOKS_OF_FEW: u64 = 1 << 20;

/// Returns how often lowering and ways may look at a graph.
pub(crate) fn most_looks(graph: &Graph) -> u64 {
    let size = u64::from(graph.len()).saturating_add(u64::from(graph.edges()));
    size.saturating_mul(LOOKS).saturating_add(LOOKS_OF_FEW)
}

/// Proposes the map of a game alone, with claims that show top as well. `None` if the search gives up. Fails only if memory runs out.
pub fn propose_measure(alloc: Global, game: &Game) -> Result<Option<Proposal>, AllocError> {
    if let Some(Proposals { of_game, .. }) = propose_at_once(alloc, game, true)? {
        return Ok(Some(of_game));
    }
    let graph = Graph::of(alloc, game)?;
    let winners = find_winners(alloc, &graph)?;
    if !winners.is_ordered {
        return Ok(None);
    }
    let mut tops = Vec::with_capacity(alloc, winners.of_odd.len())?;
    for v in &winners.of_odd {
        tops.push(RowClaim {
            vertex: *v,
            row: TOP,
            span: at(&winners.span, *v),
        })?;
    }
    let region = WonRegion::of(alloc, &graph, &winners, Player::Even)?;
    propose_for(alloc, &graph.into_priorities(), &region, tops)
}

/// Proposes the maps of a game and of its dual. Top isn't claimed: it is known from the other map. `None` if the search gives up. Fails
/// only if memory runs out.
pub fn propose(alloc: Global, game: &Game) -> Result<Option<Proposals>, AllocError> {
    if let Some(known) = propose_at_once(alloc, game, false)? {
        return Ok(Some(known));
    }
    let graph = Graph::of(alloc, game)?;
    let winners = find_winners(alloc, &graph)?;
    if !winners.is_ordered {
        return Ok(None);
    }
    let of_even = WonRegion::of(alloc, &graph, &winners, Player::Even)?;
    let of_odd = WonRegion::of(alloc, &graph, &winners, Player::Odd)?;
    drop(winners);
    let priorities = graph.into_priorities();
    let Some(of_game) = propose_for(alloc, &priorities, &of_even, Vec::new(alloc))? else {
        return Ok(None);
    };
    drop(of_even);
    let Some(of_dual) = propose_for(alloc, &priorities, &of_odd, Vec::new(alloc))? else {
        return Ok(None);
    };
    Ok(Some(Proposals { of_game, of_dual }))
}

/// Proposes the map of a player in a game of these priorities; it has top outside of the player's region. Claims of top, if there are any,
/// come first.
fn propose_for(
    alloc: Global,
    priorities: &[u32],
    region: &WonRegion,
    tops: Vec<RowClaim>,
) -> Result<Option<Proposal>, AllocError> {
    let graph = &region.graph;
    let most = most_looks(graph);
    let mut side = Side::new(alloc, graph, region.player, &region.choices, most)?;
    let Some(found) = find(&mut side, alloc, &region.choices)? else {
        return Ok(None);
    };
    let mut claims = tops;
    claims.reserve(found.len())?;
    for claim in &found {
        claims.push(RowClaim {
            vertex: at(&region.vertices, claim.vertex),
            ..*claim
        })?;
    }
    Ok(Some(write(alloc, priorities, region, &side, &claims)?))
}

fn write(
    alloc: Global,
    priorities: &[u32],
    region: &WonRegion,
    side: &Side,
    claims: &[RowClaim],
) -> Result<Proposal, AllocError> {
    let ladder = RowLadder::new(alloc, side)?;
    let hint = |row: u32, priority: u32| match priority % 2 {
        0 => ladder.hint(&side.rows, row, priority),
        _ => NONE,
    };
    let mut ranks = Vec::with_capacity(alloc, priorities.len())?;
    let mut hints = Vec::with_capacity(alloc, priorities.len())?;
    for (number, priority) in region.numbers.iter().zip(priorities) {
        let is_won = *number != NONE;
        let row = if is_won { ZEROS } else { TOP };
        ranks.push(ladder.rank(row))?;
        hints.push(hint(row, priority.saturating_add(region.player)))?;
    }
    for (number, v) in region.vertices.iter().enumerate() {
        let state = side.state(count(number));
        if state.row != ZEROS {
            put(&mut ranks, *v, ladder.rank(state.row));
            put(&mut hints, *v, hint(state.row, state.priority()));
        }
    }
    let claims = rank_claims(alloc, priorities, region.player, &ladder, claims)?;
    let RowLadder { steps, .. } = ladder;
    Ok(Proposal {
        steps,
        ranks,
        hints,
        claims,
    })
}

/// Returns the claims vertex by vertex, with their ranks. Claims of one vertex are in the order in which they rise.
fn rank_claims(
    alloc: Global,
    priorities: &[u32],
    player: u32,
    ladder: &RowLadder,
    listed: &[RowClaim],
) -> Result<Claims, AllocError> {
    let mut firsts = vec![in alloc; 0; priorities.len()]?;
    for it in listed {
        let many = at(&firsts, it.vertex).wrapping_add(1);
        put(&mut firsts, it.vertex, many);
    }
    let mut all = 0u32;
    for it in firsts.iter_mut() {
        all = all.saturating_add(*it);
        *it = all;
    }
    let nowhere = Claim {
        vertex: Vertex(0),
        rank: 0,
        place: 0,
    };
    let mut claims = vec![in alloc; nowhere; listed.len()]?;
    for place in (0..count(listed.len())).rev() {
        let Some(it) = listed.get(place as usize) else {
            continue;
        };
        let number = at(&firsts, it.vertex).wrapping_sub(1);
        put(&mut firsts, it.vertex, number);
        let claim = Claim {
            vertex: Vertex(it.vertex),
            rank: ladder.rank(it.row),
            place,
        };
        put(&mut claims, number, claim);
    }
    let mut spans = Vec::with_capacity(alloc, listed.len())?;
    for (place, it) in listed.iter().enumerate() {
        let priority = at(priorities, it.vertex).saturating_add(player);
        // a vertex of the winner may lead to itself, where that is to the winner's harm
        let span = it.span.max(priority % 2);
        let end = count(place).saturating_add(span);
        spans.push(Span { priority, end })?;
    }
    Ok(Claims {
        claims,
        firsts,
        spans,
    })
}
