//! The coordinator's own lifts.

ghost use Rattle.std.specs.Prelude.{◌≡◌, ◌<◌, ℕ, length, false};
ghost use Rattle.pg_map.specs.Lines.{game_line};
ghost use Rattle.pg_map.specs.Maps.{MapValue, MapAtMost, measure_at, IsMap, IsClosed, StaysUnder, CoversSuccessors};
ghost use Rattle.pg_coord_rounds.specs.Mirrors.CoordinatorMaps.{Moves};
ghost use Rattle.pg_coord_rounds.specs.Mirrors.Tasks.{IsClosedMap};

use crate::coordinator_map::CoordinatorMap;
use crate::task::Task;
use pg_arena::{Game, Vertex};

/// Lifts each vertex that can be lifted, from 0 up, in a round in which nothing rose. Each measure then covers the measures
/// that some or all of the vertex's successors had before.
fn pass(coordinator: &mut CoordinatorMap, game: &Game)
    requires size { length coordinator.old.map.measures ≡ length game.now }
    requires rose { coordinator.old.rose ≡ false }
    ensures moves { Moves coordinator.old coordinator.new }
    ensures map { IsMap coordinator.new.map.bounds (length game.now) coordinator.new.map.measures }
    ensures under { StaysUnder coordinator.old.map.bounds (game_line game.now) coordinator.old.map.measures coordinator.new.map.measures }
    ensures covers { (v : ℕ) → v < length game.now → CoversSuccessors coordinator.old.map.bounds (game_line game.now)
        coordinator.old.map.measures v (measure_at coordinator.new.map.measures v) }
    ensures closed { coordinator.new.rose ≡ false
        → IsClosed coordinator.new.map.bounds (game_line game.now) coordinator.new.map.measures }
{
    pg_map::laws::game_lines();
    // called for the facts about the map in its contract
    let _map = coordinator.map.len();
    for number in 0..game.len() {
        coordinator.lift(game, Vertex(number as u32));
    }
}

/// Ends a round: if nothing rose in it, makes a pass. If nothing rises in the pass either, the map is closed.
pub fn end_round(task: &Task<'_>, coordinator: &mut CoordinatorMap)
    requires bounds { coordinator.old.map.bounds ≡ task.now.bounds }
    requires size { length coordinator.old.map.measures ≡ length task.now.game }
    ensures moves { Moves coordinator.old coordinator.new }
    ensures least { (h : MapValue) → IsClosedMap task.now h → MapAtMost coordinator.old.map.measures h.measures
        → MapAtMost coordinator.new.map.measures h.measures }
    ensures closed { coordinator.new.rose ≡ false
        → IsClosed coordinator.new.map.bounds (game_line task.now.game) coordinator.new.map.measures }
{
    if !coordinator.rose {
        pass(coordinator, task.game());
    }
}
