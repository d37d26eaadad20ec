//! Maps that a search proposes, and the look at them.

ghost use Rattle.std.specs.Prelude.{◌≡◌, ◌^◌, ◌<◌, length, IfOk, IfSome};
ghost use Rattle.std.specs.Bool.{OnTrue};
ghost use Rattle.pg_arena.specs.Games.{dual};
ghost use Rattle.pg_measure.specs.Games.{IsBoundsOf};
ghost use Rattle.pg_map.specs.Lines.{game_line};
ghost use Rattle.pg_map.specs.Maps.{IsClosed, IsLeastProgressMeasure};
ghost use Rattle.pg_solver.specs.Mirrors.Known.{AreOpposite};

use crate::known::known_from;
use crate::solver::Maps;
use pg_arena::Game;
use pg_map::{Dual, Lines, Measures};
use pg_map_claims::{Claims, Proposal, Proposals, certifies, is_never_above};
use pg_map_ranks::{Ladder, RankMap};
use pg_measure::Bounds;
use std::alloc::{AllocError, Global};

/// Returns the map of a proposal and its claims; `None` if its steps are no ladder of the bounds, or if it doesn't have a rank for each
/// vertex.
fn map_of(
    alloc: Global,
    bounds: &Bounds,
    vertices: usize,
    proposal: Proposal,
) -> Result<Option<(RankMap, Claims)>, AllocError>
    requires { vertices < 2 ^ 32 }
    ensures bounds { IfOk result (λ o. IfSome o (λ x. x.0.bounds ≡ bounds.now)) }
    ensures size { IfOk result (λ o. IfSome o (λ x. length x.0.measures ≡ vertices)) }
{
    let Proposal {
        steps,
        ranks,
        hints,
        claims,
    } = proposal;
    if ranks.len() != vertices {
        return Ok(None);
    }
    match Ladder::new(alloc, bounds, steps)? {
        Some(ladder) => Ok(Some((RankMap::new(ladder, ranks, hints), claims))),
        None => Ok(None),
    }
}

/// Returns the map that is proposed for a game, if its claims show that it is the least progress measure.
pub(crate) fn certified(
    alloc: Global,
    game: &Game,
    proposal: Proposal,
) -> Result<Option<RankMap>, AllocError>
    ensures bounds { IfOk result (λ o. IfSome o (λ m. IsBoundsOf game.now m.bounds)) }
    ensures least { IfOk result (λ o. IfSome o
        (λ m. IsLeastProgressMeasure m.bounds (length game.now) (game_line game.now) m.measures)) }
{
    pg_map::laws::game_lines();
    pg_map_claims::laws::zeros_are_known();
    let bounds = Bounds::of(alloc, game)?;
    let Some((map, claims)) = map_of(alloc, &bounds, game.len(), proposal)? else {
        return Ok(None);
    };
    let known = vec![in alloc; false; game.len()]?;
    if !certifies(game, &map, &claims, &known) {
        return Ok(None);
    }
    Ok(Some(map))
}

/// Whether the claims show that a closed map is the least progress measure, given a closed map of the dual lines: where that map has a
/// list, top needs no claim.
fn is_least_beside<G: Lines, H: Lines>(
    alloc: Global,
    lines: &G,
    map: &RankMap,
    claims: &Claims,
    _other_lines: &H,
    other: &RankMap,
) -> Result<bool, AllocError>
    requires opposite { AreOpposite (length map.now.measures) (G.line lines.now) (H.line _other_lines.now) }
    requires size { length other.now.measures ≡ length map.now.measures }
    requires closed { IsClosed map.now.bounds (G.line lines.now) map.now.measures }
    requires other_closed { IsClosed other.now.bounds (H.line _other_lines.now) other.now.measures }
    ensures { IfOk result (λ is_least. OnTrue is_least (IsLeastProgressMeasure map.now.bounds (length map.now.measures)
        (G.line lines.now) map.now.measures)) }
{
    // called for what its contract says of the map
    let _vertices = map.len();
    let known = known_from(alloc, other)?;
    Ok(is_never_above(lines, map, claims, &known))
}

/// Returns the maps that are proposed for a game and for its dual, if their claims show that they are the least progress measures. Both
/// maps are closed, so where one has a list the other's top needs no claim.
pub(crate) fn both_certified(
    alloc: Global,
    game: &Game,
    proposals: Proposals,
) -> Result<Option<Maps<RankMap>>, AllocError>
    ensures bounds { IfOk result (λ o. IfSome o (λ m. IsBoundsOf game.now m.of_game.bounds)) }
    ensures least { IfOk result (λ o. IfSome o (λ m.
        IsLeastProgressMeasure m.of_game.bounds (length game.now) (game_line game.now) m.of_game.measures)) }
    ensures dual_bounds { IfOk result (λ o. IfSome o (λ m. IsBoundsOf (dual game.now) m.of_dual.bounds)) }
    ensures dual_least { IfOk result (λ o. IfSome o (λ m. IsLeastProgressMeasure m.of_dual.bounds (length (dual game.now))
        (game_line (dual game.now)) m.of_dual.measures)) }
{
    let dual = Dual::of(game);
    let bounds = Bounds::of(alloc, game)?;
    let dual_bounds = Bounds::of_dual(alloc, game)?;
    let Some((of_game, claims)) = map_of(alloc, &bounds, game.len(), proposals.of_game)? else {
        return Ok(None);
    };
    let Some((of_dual, dual_claims)) = map_of(alloc, &dual_bounds, game.len(), proposals.of_dual)?
    else {
        return Ok(None);
    };
    if !are_least(alloc, game, &of_game, &claims, &of_dual, &dual_claims)? {
        return Ok(None);
    }
    Ok(Some(Maps { of_game, of_dual }))
}

/// Whether the maps of a game and of its dual are closed and the claims show that they are the least progress measures.
fn are_least(
    alloc: Global,
    game: &Game,
    of_game: &RankMap,
    claims: &Claims,
    of_dual: &RankMap,
    dual_claims: &Claims,
) -> Result<bool, AllocError>
    requires size { length of_game.now.measures ≡ length game.now }
    requires dual_size { length of_dual.now.measures ≡ length game.now }
    ensures least { IfOk result (λ are_least. OnTrue are_least (IsLeastProgressMeasure of_game.now.bounds (length game.now)
        (game_line game.now) of_game.now.measures)) }
    ensures dual_least { IfOk result (λ are_least. OnTrue are_least (IsLeastProgressMeasure of_dual.now.bounds
        (length (dual game.now)) (game_line (dual game.now)) of_dual.now.measures)) }
{
    pg_map::laws::game_lines();
    pg_map::laws::game_lines_are_dual();
    // called for what its contract says of the game
    let _vertices = game.len();
    let dual = Dual::of(game);
    if !of_game.is_closed(game) || !of_dual.is_closed(&dual) {
        return Ok(false);
    }
    let is_least = is_least_beside(alloc, game, of_game, claims, &dual, of_dual)?;
    let is_dual_least = is_least_beside(alloc, &dual, of_dual, dual_claims, game, of_game)?;
    Ok(is_least && is_dual_least)
}
