//! The least progress measures of a game and of its dual.

ghost use Rattle.std.specs.Prelude.{◌≡◌, length, IfOk};
ghost use Rattle.pg_arena.specs.Games.{dual};
ghost use Rattle.pg_measure.specs.Games.{IsBoundsOf};
ghost use Rattle.pg_map.specs.Lines.{game_line};
ghost use Rattle.pg_map.specs.Maps.{IsLeastProgressMeasure};
ghost use Rattle.pg_solver.specs.Founds.{found_map};

use crate::found::Found;
use crate::lifting::lifted;
use crate::proposed::{both_certified, certified};
use pg_arena::Game;
use pg_map::{Dual, MeasureMap};
use pg_map_claims::{Proposal, Proposals};
use pg_map_lift::Lent;
use pg_measure::Bounds;
use std::alloc::{AllocError, Global};

/// A map of a game and a map of its dual.
#[derive(Drop)]
pub struct Maps<M: Drop> {
    pub of_game: M,
    pub of_dual: M,
}

/// The most numbers, vertices times odd priorities, in a map that is lifted to its end. They take 1 GB.
const MOST_NUMBERS: usize = 1 << 28;

/// Fails for a map with more than `MOST_NUMBERS` numbers, as if memory ran out.
fn see_if_it_fits(vertices: usize, bounds: &Bounds) -> Result<(), AllocError> {
    if vertices.saturating_mul(bounds.pairs().len()) > MOST_NUMBERS {
        return Err(AllocError);
    }
    Ok(())
}

/// Returns the least progress measure of a game, by lifting.
fn lift_game(alloc: Global, game: &Game) -> Result<MeasureMap, AllocError>
    ensures bounds { IfOk result (λ m. IsBoundsOf game.now m.bounds) }
    ensures least { IfOk result (λ m. IsLeastProgressMeasure m.bounds (length game.now) (game_line game.now) m.measures) }
{
    pg_map::laws::game_lines();
    let bounds = Bounds::of(alloc, game)?;
    see_if_it_fits(game.len(), &bounds)?;
    let zero = MeasureMap::zero(alloc, game.len() as u32, &bounds)?;
    lifted(alloc, Lent { lines: game }, zero)
}

/// Returns the least progress measure of the dual of a game, by lifting.
fn lift_dual(alloc: Global, game: &Game) -> Result<MeasureMap, AllocError>
    ensures bounds { IfOk result (λ m. IsBoundsOf (dual game.now) m.bounds) }
    ensures least { IfOk result (λ m. IsLeastProgressMeasure m.bounds (length (dual game.now))
        (game_line (dual game.now)) m.measures) }
{
    pg_map::laws::game_lines();
    pg_map::laws::game_lines_are_dual();
    let bounds = Bounds::of_dual(alloc, game)?;
    see_if_it_fits(game.len(), &bounds)?;
    let zero = MeasureMap::zero(alloc, game.len() as u32, &bounds)?;
    lifted(alloc, Dual::of(game), zero)
}

/// Returns the least progress measure of a game: the proposed map if its claims hold, and otherwise the map that lifting finds. The map
/// has the same measures either way. It fails only if memory runs out; lifting also counts as running out of memory if the map has more
/// than 2^28 numbers, vertices times odd priorities.
pub fn measure(alloc: Global, game: &Game, proposal: Option<Proposal>) -> Result<Found, AllocError>
    ensures bounds { IfOk result (λ m. IsBoundsOf game.now (found_map m).bounds) }
    ensures least { IfOk result (λ m. IsLeastProgressMeasure (found_map m).bounds (length game.now)
        (game_line game.now) (found_map m).measures) }
{
    if let Some(proposal) = proposal {
        if let Some(map) = certified(alloc, game, proposal)? {
            return Ok(Found::Ranks(map));
        }
    }
    Ok(Found::Rows(lift_game(alloc, game)?))
}

/// Returns the least progress measures of a game and of its dual: the proposed maps if the claims of both hold, and otherwise the maps
/// that lifting finds. The maps have the same measures either way. It fails only if memory runs out; lifting also counts as running out
/// of memory if a map has more than 2^28 numbers, vertices times odd priorities.
pub fn solve(
    alloc: Global,
    game: &Game,
    proposals: Option<Proposals>,
) -> Result<Maps<Found>, AllocError>
    ensures bounds { IfOk result (λ m. IsBoundsOf game.now (found_map m.of_game).bounds) }
    ensures least { IfOk result (λ m. IsLeastProgressMeasure (found_map m.of_game).bounds (length game.now)
        (game_line game.now) (found_map m.of_game).measures) }
    ensures dual_bounds { IfOk result (λ m. IsBoundsOf (dual game.now) (found_map m.of_dual).bounds) }
    ensures dual_least { IfOk result (λ m. IsLeastProgressMeasure (found_map m.of_dual).bounds (length (dual game.now))
        (game_line (dual game.now)) (found_map m.of_dual).measures) }
{
    if let Some(proposals) = proposals {
        if let Some(maps) = both_certified(alloc, game, proposals)? {
            return Ok(Maps {
                of_game: Found::Ranks(maps.of_game),
                of_dual: Found::Ranks(maps.of_dual),
            });
        }
    }
    Ok(Maps {
        of_game: Found::Rows(lift_game(alloc, game)?),
        of_dual: Found::Rows(lift_dual(alloc, game)?),
    })
}
