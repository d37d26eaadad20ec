//! Games and their least progress measures.

ghost use Rattle.std.specs.Prelude.{◌≡◌, ◌↔◌, length, IfOk, IsTrue};
ghost use Rattle.pg_arena.specs.Games.{HasPrioritiesUpTo};
ghost use Rattle.pg_map.specs.Lines.{AreWithin, game_line};
ghost use Rattle.pg_map.specs.Maps.{IsClosed};

use Player::{Even, Odd};
use pg_arena::{ArenaFault, Game, GameBuilder, Player};
use pg_map::{MeasureMap, lift_to_end};
use pg_measure::Bounds;
use std::alloc::{AllocError, Global};

/// A vertex, given by its identifier, priority, owner and the identifiers of its successors.
pub struct Line<'a>(pub u32, pub u32, pub Player, pub &'a [u32]);

/// Makes the game of these lines.
pub fn game_of(alloc: Global, lines: &[Line]) -> Result<Game, ArenaFault>
    ensures { IfOk result (HasPrioritiesUpTo 65535) }
{
    let mut builder = GameBuilder::new(alloc);
    for line in lines {
        builder.add(line.0, line.1, line.2, line.3, None)?;
    }
    builder.finish()
}

/// Returns the least progress measure of a game.
pub fn least_map(alloc: Global, game: &Game) -> Result<MeasureMap, AllocError>
    ensures { IfOk result (λ map. length map.measures ≡ length game.now) }
{
    let bounds = Bounds::of(alloc, game)?;
    let mut map = MeasureMap::zero(alloc, game.len() as u32, &bounds)?;
    if is_of(&map, game) {
        lift_to_end(&mut map, game);
    }
    Ok(map)
}

/// Whether the map has a measure for each vertex of the game.
fn is_of(map: &MeasureMap, game: &Game) -> bool
    ensures size { IsTrue result ↔ (length map.now.measures ≡ length game.now) }
    ensures within { IsTrue result → AreWithin (length map.now.measures) (game_line game.now) }
{
    map.len() as usize == game.len()
}

/// Whether nothing can be lifted.
pub fn is_closed(map: &MeasureMap, game: &Game) -> bool
    ensures size { IsTrue result → length map.now.measures ≡ length game.now }
    ensures closed { IsTrue result → IsClosed map.now.bounds (game_line game.now) map.now.measures }
{
    if is_of(map, game) {
        map.first_liftable(game).is_none()
    } else {
        false
    }
}

/// Makes a game of three vertices: Odd keeps the play on the odd priority of the second one, Even keeps it on the third.
pub fn three(alloc: Global) -> Result<Game, ArenaFault>
    ensures { IfOk result (HasPrioritiesUpTo 65535) }
{
    game_of(
        alloc,
        &[
            Line(10, 0, Odd, &[10, 20]),
            Line(20, 1, Odd, &[20, 30]),
            Line(30, 2, Even, &[10, 30]),
        ],
    )
}
