//! Games whose priorities all have the same parity. The player of that parity wins everywhere, and both maps are known at once: zeros for
//! the winner, and top for the loser.

use pg_arena::{Game, Vertex};
use pg_map_claims::{Claim, Claims, Proposal, Proposals, Span};
use pg_search_components::{count, put};
use std::alloc::{AllocError, Global};

/// Returns the parity of all priorities, if they share one.
fn parity_of(game: &Game) -> Option<u32> {
    let mut parity = None;
    for number in 0..game.len() as u32 {
        let here = game.priority(Vertex(number)) % 2;
        match parity {
            Some(other) if other != here => return None,
            _ => parity = Some(here),
        }
    }
    parity
}

/// A vertex with its priority.
#[derive(Clone, Copy)]
struct VertexPriority {
    vertex: u32,
    priority: u32,
}

/// Returns claims of top everywhere, each of which may lead to all. Claims of vertices of greater priorities come first: so where all are
/// Odd's, Odd wins the cycles.
fn claims_of_top(alloc: Global, game: &Game) -> Result<Claims, AllocError> {
    let mut order = Vec::with_capacity(alloc, game.len())?;
    for vertex in 0..game.len() as u32 {
        let priority = game.priority(Vertex(vertex));
        order.push(VertexPriority { vertex, priority })?;
    }
    order.sort_unstable_by_key(|it| !it.priority);
    let end = count(order.len());
    let mut claims = Vec::with_capacity(alloc, order.len())?;
    let mut firsts = vec![in alloc; 0; order.len()]?;
    let mut spans = Vec::with_capacity(alloc, order.len())?;
    for VertexPriority { vertex, priority } in &order {
        let place = count(claims.len());
        claims.push(Claim {
            vertex: Vertex(*vertex),
            rank: 1,
            place,
        })?;
        put(&mut firsts, *vertex, place);
        spans.push(Span {
            priority: *priority,
            end,
        })?;
    }
    Ok(Claims {
        claims,
        firsts,
        spans,
    })
}

/// Returns the map that has one rank everywhere.
fn everywhere(alloc: Global, game: &Game, rank: u32) -> Result<Proposal, AllocError> {
    Ok(Proposal {
        steps: Vec::new(alloc),
        ranks: vec![in alloc; rank; game.len()]?,
        hints: Vec::new(alloc),
        claims: Claims {
            claims: Vec::new(alloc),
            firsts: Vec::new(alloc),
            spans: Vec::new(alloc),
        },
    })
}

/// Returns the maps of such a game and of its dual, or `None` for any other game. Claims show top if `with_tops` asks for that. In a ladder
/// without steps, zeros have rank 0 and top has rank 1.
pub(crate) fn propose_at_once(
    alloc: Global,
    game: &Game,
    with_tops: bool,
) -> Result<Option<Proposals>, AllocError> {
    let Some(parity) = parity_of(game) else {
        return Ok(None);
    };
    let mut of_game = everywhere(alloc, game, parity)?;
    if with_tops && parity == 1 {
        of_game.claims = claims_of_top(alloc, game)?;
    }
    let of_dual = everywhere(alloc, game, parity ^ 1)?;
    Ok(Some(Proposals { of_game, of_dual }))
}
