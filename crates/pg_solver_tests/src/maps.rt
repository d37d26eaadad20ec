//! Maps over a game of two vertices of Even with the priorities 1 and 3, each leading to the first:
//! `parity 1; 0 1 0 0; 1 3 0 0;`.

ghost use Rattle.std.specs.Prelude.{◌≡◌, length, IfOk, IsTrue};
ghost use Rattle.pg_map.specs.Lines.{AreWithin, game_line};
ghost use Rattle.pg_map.specs.Maps.{AreAlike};

use pg_arena::{Game, GameBuilder, Player, Vertex};
use pg_map::{Join, Lines, MeasureMap, View, lift_to_end};
use pg_measure::{Bounds, Measure};
use std::alloc::{AllocError, Global};
use std::test::Fail;

fn game(alloc: Global) -> Result<Game, Fail> {
    let mut builder = GameBuilder::new(alloc);
    for (vertex, priority) in [(0, 1), (1, 3)] {
        builder.add(vertex, priority, Player::Even, &[0], None)?;
    }
    Ok(builder.finish()?)
}

/// Whether the map has a measure for each vertex of the game.
fn is_of(map: &MeasureMap, game: &Game) -> bool
    ensures { IsTrue result → AreWithin (length map.now.measures) (game_line game.now) }
{
    map.len() as usize == game.len()
}

/// Whether these are the measures of the two vertices.
fn are(map: &MeasureMap, first: View, second: View) -> bool {
    map.len() == 2 && map.get(Vertex(0)) == first && map.get(Vertex(1)) == second
}

/// Whether vertex 0 can be lifted, a pass raises both vertices, and a lift raises vertex 0 again.
fn climbs(map: &mut MeasureMap, game: &Game) -> bool {
    is_of(map, game)
        && map.first_liftable(game) == Some(Vertex(0))
        && map.lift_each(game)
        && are(map, View::List(&[0, 1]), View::List(&[1, 0]))
        && is_of(map, game)
        && game.holds(Vertex(0))
        && map.lift(game, Vertex(0))
        && are(map, View::List(&[1, 0]), View::List(&[1, 0]))
}

/// Whether lifting ends with top at both vertices, and vertex 0 then serves vertex 1.
fn ends_at_top(map: &mut MeasureMap, game: &Game) -> bool {
    if !is_of(map, game) {
        return false;
    }
    lift_to_end(map, game);
    are(map, View::Top, View::Top)
        && is_of(map, game)
        && map.first_liftable(game).is_none()
        && game.holds(Vertex(1))
        && map.serves(game, Vertex(1), Vertex(0))
}

#[test]
fn lifts_end_at_top(rt: HostRuntime) -> Result<(), Fail> {
    let game = game(rt.alloc())?;
    let mut map = MeasureMap::zero(rt.alloc(), 2, &Bounds::of(rt.alloc(), &game)?)?;
    assert!(rt; climbs(&mut map, &game));
    assert!(rt; ends_at_top(&mut map, &game));
    Ok(())
}

/// Returns the map of zeros with one of the two vertices raised to this measure.
fn raised(alloc: Global, bounds: &Bounds, v: u32, to: &Measure) -> Result<MeasureMap, AllocError>
    ensures bounds { IfOk result (λ m. m.bounds ≡ bounds.now) }
    ensures size { IfOk result (λ m. length m.measures ≡ 2) }
{
    let mut map = MeasureMap::zero(alloc, 2, bounds)?;
    if v < map.len() && to.fits(map.bounds()) {
        map.raise(Vertex(v), to.view());
    }
    Ok(map)
}

/// Whether the first map isn't at most the second, and has 0,1 and top once the second is joined with it.
fn joins(first: &mut MeasureMap, second: &MeasureMap) -> bool
    requires { AreAlike first.old second.now }
{
    !first.at_most(second)
        && first.join_with(second).is_ok()
        && are(first, View::List(&[0, 1]), View::Top)
}

#[test]
fn maps_join(rt: HostRuntime) -> Result<(), Fail> {
    let alloc = rt.alloc();
    let bounds = Bounds::of(alloc, &game(alloc)?)?;
    let mut map = raised(alloc, &bounds, 0, &Measure::from_list(alloc, &[0, 1])?)?;
    let other = raised(alloc, &bounds, 1, &Measure::top(alloc, &bounds)?)?;
    assert!(rt; joins(&mut map, &other));
    Ok(())
}

#[test]
fn a_measure_is_copied(rt: HostRuntime) -> Result<(), Fail> {
    let alloc = rt.alloc();
    let bounds = Bounds::of(alloc, &game(alloc)?)?;
    let map = raised(alloc, &bounds, 1, &Measure::top(alloc, &bounds)?)?;
    let mut measure = Measure::zero(alloc, &bounds)?;
    map.copy_to(Vertex(1), &mut measure);
    assert!(rt; measure.view() == View::Top);
    Ok(())
}
