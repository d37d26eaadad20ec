//! A game and its dual are compared with the lines of the game; a builder that refused a line goes on; the texts of faults.

ghost use Rattle.std.specs.Prelude.{IfOk};
ghost use Rattle.pg_arena.specs.Games.{HasPrioritiesUpTo};

use pg_arena::{ArenaFault, Game, GameBuilder, Player, Vertex, dual};
use std::alloc::Global;
use std::test::Fail;

/// Builds a game of two lines whose identifiers don't rise; one repeats a successor. A line between them is refused.
fn built(alloc: Global) -> Result<Game, ArenaFault>
    ensures { IfOk result (HasPrioritiesUpTo 65535) }
{
    let mut builder = GameBuilder::new(alloc);
    builder.add(7, 3, Player::Odd, &[7, 2, 7], None)?;
    if builder.add(7, 0, Player::Even, &[2], None) != Err(ArenaFault::DuplicateVertex(7)) {
        return Err(ArenaFault::NoVertex);
    }
    builder.add(2, 65_535, Player::Even, &[7], Some(b"name"))?;
    builder.finish()
}

/// Whether the vertex with this number has this line.
fn has_line(game: &Game, v: u32, identifier: u32, priority: u32, owner: Player) -> bool {
    (v as usize) < game.len()
        && game.vertex_of(identifier) == Some(Vertex(v))
        && game.identifier(Vertex(v)) == identifier
        && game.priority(Vertex(v)) == priority
        && game.owner(Vertex(v)) == owner
}

/// Whether the second vertex leads to both vertices, and only the first one has a name.
fn has_edges_and_a_name(game: &Game) -> bool {
    game.len() == 2
        && game.successors(Vertex(1)) == [Vertex(0), Vertex(1)].as_slice()
        && game.name(Vertex(0)) == Some(b"name".as_slice())
        && game.name(Vertex(1)).is_none()
}

#[test]
fn a_game_is_as_its_lines_say(rt: HostRuntime) -> Result<(), Fail> {
    let game = built(rt.alloc())?;
    assert!(rt; has_line(&game, 0, 2, 65_535, Player::Even));
    assert!(rt; has_line(&game, 1, 7, 3, Player::Odd));
    assert!(rt; has_edges_and_a_name(&game));
    Ok(())
}

#[test]
fn its_dual_has_other_owners_and_priorities(rt: HostRuntime) -> Result<(), Fail> {
    let dual = dual(rt.alloc(), &built(rt.alloc())?)?;
    assert!(rt; has_line(&dual, 0, 2, 65_536, Player::Even.opponent()));
    assert!(rt; has_line(&dual, 1, 7, 4, Player::Odd.opponent()));
    assert!(rt; has_edges_and_a_name(&dual));
    Ok(())
}

/// Faults and their texts.
static TEXTS: [(ArenaFault, &str); 8] = [
    (ArenaFault::OutOfMemory, "out of memory"),
    (ArenaFault::DuplicateVertex(3), "vertex 3 is defined twice"),
    (ArenaFault::NoSuccessor(4), "vertex 4 has no successor"),
    (
        ArenaFault::UnknownSuccessor(0, 9),
        "vertex 0 has successor 9, which no line defines",
    ),
    (ArenaFault::TooManyVertices, "more than 1048576 vertices"),
    (ArenaFault::TooManyEdges, "more than 8388608 edges"),
    (
        ArenaFault::PriorityTooLarge(0, 65_536),
        "vertex 0 has priority 65536, the limit is 65535",
    ),
    (ArenaFault::NoVertex, "no vertex"),
];

#[test]
fn faults_have_their_texts(rt: HostRuntime) -> Result<(), Fail> {
    for (fault, text) in &TEXTS {
        let printed = format!(in rt.alloc(); "{fault}")?;
        assert_eq!(rt; printed.as_str(), *text);
    }
    Ok(())
}
