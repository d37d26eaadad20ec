//! Proposals that are certified, and others that are refused, so that the game is lifted.

use pg_arena::Player::{Even, Odd};
use pg_arena::{Game, GameBuilder, Player, Vertex};
use pg_map_claims::{Claim, Claims, Proposal, Span};
use pg_search::{propose, propose_measure};
use pg_solver::{Found, Proposals, measure, solve};
use std::alloc::{AllocError, Global};
use std::test::Fail;

/// Makes the game of these vertices: the priority of each, its owner and its successors.
fn game(alloc: Global, vertices: &[(u32, Player, &[u32])]) -> Result<Game, Fail> {
    let mut builder = GameBuilder::new(alloc);
    let mut number = 0;
    for (priority, owner, successors) in vertices {
        builder.add(number, *priority, *owner, successors, None)?;
        number = number.wrapping_add(1);
    }
    Ok(builder.finish()?)
}

/// Odd's vertex 0 goes to 1 first and comes back over 2, and then goes to 3. So vertex 0 has a claim in each of two rows:
/// one at 3, and one at both 3 and 1.
static TWICE: [(u32, Player, &[u32]); 6] = [
    (0, Odd, &[1, 3]),
    (1, Even, &[2]),
    (2, Even, &[0]),
    (3, Even, &[4]),
    (4, Even, &[4]),
    (0, Even, &[0]),
];

/// Makes claims from vertices, ranks and places, the first place of each vertex, and the priorities and ends of an order.
fn claims(
    alloc: Global,
    claims: &[(u32, u32, u32)],
    firsts: &[u32],
    spans: &[(u32, u32)],
) -> Result<Claims, AllocError> {
    let mut made = Claims {
        claims: Vec::new(alloc),
        firsts: Vec::from_slice(alloc, firsts)?,
        spans: Vec::new(alloc),
    };
    for (v, rank, place) in claims {
        made.claims.push(Claim {
            vertex: Vertex(*v),
            rank: *rank,
            place: *place,
        })?;
    }
    for (priority, end) in spans {
        made.spans.push(Span {
            priority: *priority,
            end: *end,
        })?;
    }
    Ok(made)
}

/// Makes the proposal of these ranks over these steps.
fn proposal(
    alloc: Global,
    steps: &[u32],
    ranks: &[u32],
    claims: Claims,
) -> Result<Proposal, AllocError> {
    Ok(Proposal {
        steps: Vec::from_slice(alloc, steps)?,
        ranks: Vec::from_slice(alloc, ranks)?,
        hints: Vec::new(alloc),
        claims,
    })
}

/// Whether the proposal is certified; otherwise the game is lifted.
fn is_certified(
    alloc: Global,
    game: &Game,
    proposal: Option<Proposal>,
) -> Result<bool, AllocError> {
    let found = measure(alloc, game, proposal)?;
    Ok(matches!(&found, Found::Ranks(_)))
}

/// Whether the proposals for the game and its dual are certified; otherwise both are lifted.
fn are_certified(
    alloc: Global,
    game: &Game,
    proposals: Option<Proposals>,
) -> Result<bool, AllocError> {
    let maps = solve(alloc, game, proposals)?;
    Ok(matches!(
        (&maps.of_game, &maps.of_dual),
        (Found::Ranks(_), Found::Ranks(_))
    ))
}

/// Returns the proposals for a game and its dual, without the claims of the game.
fn without_claims(alloc: Global, game: &Game) -> Result<Option<Proposals>, Fail> {
    let mut proposals = propose(alloc, game)?;
    if let Some(proposals) = &mut proposals {
        proposals.of_game.claims.claims.clear();
    }
    Ok(proposals)
}

#[test]
fn two_claims_of_one_vertex(rt: HostRuntime) -> Result<(), Fail> {
    let alloc = rt.alloc();
    let game = game(alloc, &TWICE)?;
    let by_hand = claims(
        alloc,
        &[
            (0, 1, 1),
            (0, 2, 4),
            (1, 2, 3),
            (2, 1, 2),
            (3, 1, 0),
            (5, 2, 5),
        ],
        &[0, 2, 3, 4, 0, 5],
        &[(3, 0), (0, 1), (2, 2), (1, 3), (0, 4), (0, 5)],
    )?;
    let by_hand = proposal(alloc, &[3, 1], &[2, 2, 1, 1, 0, 2], by_hand)?;
    assert!(rt; is_certified(alloc, &game, Some(by_hand))?);
    Ok(())
}

/// Odd stays at the odd priority for ever.
#[test]
fn claims_of_top(rt: HostRuntime) -> Result<(), Fail> {
    let alloc = rt.alloc();
    let game = game(
        alloc,
        &[(0, Odd, &[0, 1]), (1, Odd, &[1, 2]), (2, Even, &[0, 2])],
    )?;
    let by_hand = claims(
        alloc,
        &[(0, 1, 1), (1, 1, 0)],
        &[0, 1, 0],
        &[(1, 1), (0, 1)],
    )?;
    let by_hand = proposal(alloc, &[], &[1, 1, 0], by_hand)?;
    assert!(rt; is_certified(alloc, &game, Some(by_hand))?);
    Ok(())
}

#[test]
fn proposals_of_a_game_and_its_dual_are_certified(rt: HostRuntime) -> Result<(), Fail> {
    let alloc = rt.alloc();
    let game = game(alloc, &TWICE)?;
    assert!(rt; is_certified(alloc, &game, propose_measure(alloc, &game)?)?);
    assert!(rt; are_certified(alloc, &game, propose(alloc, &game)?)?);
    Ok(())
}

#[test]
fn what_is_refused_is_lifted(rt: HostRuntime) -> Result<(), Fail> {
    let alloc = rt.alloc();
    let game = game(alloc, &TWICE)?;
    assert!(rt; !is_certified(alloc, &game, None)?);
    assert!(rt; !are_certified(alloc, &game, without_claims(alloc, &game)?)?);
    Ok(())
}
