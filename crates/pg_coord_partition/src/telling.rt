//! The set-up and the lines of a game, as a worker receives them.

ghost use Rattle.std.specs.Prelude.{◌≡◌, ◌≤◌, ◌<◌, ◌*◌, ◌↔◌, length, IsTrue, IfOk, OnOk};
ghost use Rattle.pg_arena.specs.Games.{vertex_at};
ghost use Rattle.pg_measure.specs.Games.{IsBoundsOf};
ghost use Rattle.pg_map.specs.Lines.{vertex_line};
ghost use Rattle.pg_wire.specs.Well.{IsSetup, IsVertexLine};
ghost use Rattle.pg_wire.specs.Lines.{line_with};
ghost use Rattle.pg_coord_partition.specs.Frames.{told_line};

use pg_arena::{Game, Player, Vertex};
use pg_measure::Bounds;
use pg_wire::{Items, LineHead, Setup, VertexLine};
use std::alloc::{AllocError, Global};

/// The greatest number of components in a worker's map.
const MOST_NUMBERS: usize = 67_108_864;

/// Whether a worker keeps a map for this number of vertices and of odd priorities: whether their product is at most
/// 67,108,864.
pub fn fits_worker(vertices: usize, bounds: usize) -> bool
    ensures { IsTrue result ↔ vertices * bounds ≤ 67108864 }
{
    match vertices.checked_mul(bounds) {
        Some(numbers) => numbers <= MOST_NUMBERS,
        None => false,
    }
}

/// Makes the set-up for a game with these bounds, in version 1 or 2 of the wire format. Fails only if memory runs out.
pub fn setup_of(
    alloc: Global,
    version: u8,
    game: &Game,
    bounds: &Bounds,
) -> Result<Setup, AllocError>
    requires version { (1 ≤ version) × (version ≤ 2) }
    requires bounds { IsBoundsOf game.now bounds.now }
    ensures version { IfOk result (λ s. s.version ≡ version) }
    ensures vertices { IfOk result (λ s. s.vertices ≡ length game.now) }
    ensures bounds { IfOk result (λ s. s.bounds ≡ bounds.now) }
    ensures well { IfOk result IsSetup }
{
    pg_measure::laws::bounds_are_few();
    let vertices = game.len() as u32;
    let pairs = Vec::from_slice(alloc, bounds.pairs())?;
    Ok(Setup {
        version,
        vertices,
        bounds: Items::new(pairs),
    })
}

/// Puts the numbers of vertices into a vector, in place of its contents.
fn fill_numbers(vertices: &[Vertex], numbers: &mut Vec<u32>) -> Result<(), AllocError>
    ensures { OnOk result (numbers.new.items ≡ vertices.now) }
{
    numbers.clear();
    numbers.reserve(vertices.len())?;
    for v in vertices {
        numbers.push(v.0)?;
    }
    Ok(())
}

/// Returns the head of a vertex's line for a worker, and puts the successors into the vector, in place of its contents. The
/// vertex must be one of the game. Fails only if memory runs out.
pub fn fill_line(game: &Game, v: Vertex, successors: &mut Vec<u32>) -> Result<LineHead, AllocError>
    requires { v < length game.now }
    ensures vertex { IfOk result (λ head. head.vertex ≡ v) }
    ensures line { IfOk result (λ head. told_line (line_with head successors.new.items)
        ≡ vertex_line (vertex_at game.now v)) }
    ensures well { IfOk result (λ head. IsVertexLine (line_with head successors.new.items)) }
{
    let _vertices = game.len();
    fill_numbers(game.successors(v), successors)?;
    let owner = match game.owner(v) {
        Player::Even => 0,
        Player::Odd => 1,
    };
    Ok(LineHead {
        vertex: v.0,
        priority: game.priority(v),
        owner,
    })
}

/// Makes the line of a vertex for a worker. The vertex must be one of the game. Fails only if memory runs out.
pub fn line_of(alloc: Global, game: &Game, v: Vertex) -> Result<VertexLine, AllocError>
    requires { v < length game.now }
    ensures vertex { IfOk result (λ l. l.vertex ≡ v) }
    ensures line { IfOk result (λ l. told_line l ≡ vertex_line (vertex_at game.now v)) }
    ensures well { IfOk result IsVertexLine }
{
    let mut successors = Vec::new(alloc);
    let head = fill_line(game, v, &mut successors)?;
    Ok(VertexLine {
        vertex: head.vertex,
        priority: head.priority,
        owner: head.owner,
        successors: Items::new(successors),
    })
}
