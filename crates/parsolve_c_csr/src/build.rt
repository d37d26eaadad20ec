//! Games made from arrays.

ghost use Rattle.std.specs.Prelude.{◌≡◌, ◌↔◌, ◌<◌, ◌++◌, ◌∷◌, [], length, map, All, OnOk, IsTrue, IfOk, IfErr};
ghost use Rattle.std.specs.List.{range_with_len};
ghost use Rattle.pg_arena.specs.declared.fault.ArenaFault.{ArenaFault};
ghost use Rattle.parsolve_c_csr.specs.Games.{arrays_of, HaveSizes, IsRow, SpellsGame, vertex_of, game_of, player_of};
ghost use Rattle.parsolve_c_csr.specs.Faults.{IsReached, IsFault, RefusesGame};

use crate::arrays::Arrays;
use crate::fault::{ArraysFault, GameFault};
use pg_arena::{ArenaFault, Game, GameBuilder, MAX_EDGES, MAX_PRIORITY, MAX_VERTICES, Player};
use std::alloc::{AllocError, Global};

/// Whether each number is below the bound.
fn are_below(numbers: &[u32], bound: usize) -> bool
    ensures { IsTrue result ↔ All (λ n. n < bound) numbers.now }
{
    numbers.iter().all(|n| (*n as usize) < bound)
}

/// Returns the player of a number: Even for 0, and Odd for any other.
pub(crate) fn player_of(number: u8) -> Player
    ensures { result ≡ player_of number }
{
    if number == 0 {
        Player::Even
    } else {
        Player::Odd
    }
}

/// Checks a vertex, after the lengths of the arrays and the vertices before it passed.
fn examine_vertex(arrays: &Arrays, v: u32) -> Result<(), GameFault>
    requires { IsReached (arrays_of arrays.now) v }
    ensures ok { OnOk result (IsRow (arrays_of arrays.now) v) }
    ensures fault { IfErr result (IsFault (arrays_of arrays.now)) }
{
    let at = v as usize;
    if arrays.priorities[at] > MAX_PRIORITY {
        return Err(GameFault::PriorityTooLarge(v));
    }
    if arrays.owners[at] > 1 {
        return Err(GameFault::BadOwner(v));
    }
    let from = arrays.starts[at] as usize;
    let to = arrays.starts[at + 1] as usize;
    if to < from || to > arrays.successors.len() {
        return Err(GameFault::BadStart(v));
    }
    if from == to {
        return Err(GameFault::NoSuccessor(v));
    }
    if !are_below(&arrays.successors[from..to], arrays.priorities.len()) {
        return Err(GameFault::UnknownSuccessor(v));
    }
    Ok(())
}

/// Checks the lengths of the arrays.
fn examine_sizes(arrays: &Arrays) -> Result<(), GameFault>
    ensures ok { OnOk result (HaveSizes (arrays_of arrays.now)) }
    ensures fault { IfErr result (IsFault (arrays_of arrays.now)) }
{
    let count = arrays.priorities.len();
    if arrays.owners.len() != count || arrays.starts.len() != count + 1 {
        return Err(GameFault::Lengths);
    }
    if count == 0 {
        return Err(GameFault::NoVertex);
    }
    if count > MAX_VERTICES {
        return Err(GameFault::TooManyVertices);
    }
    if arrays.successors.len() > MAX_EDGES {
        return Err(GameFault::TooManyEdges);
    }
    Ok(())
}

/// Succeeds if the arrays spell a game, and otherwise returns the first fault in them.
pub fn examine(arrays: &Arrays) -> Result<(), GameFault>
    ensures ok { OnOk result (SpellsGame (arrays_of arrays.now)) }
    ensures fault { IfErr result (IsFault (arrays_of arrays.now)) }
{
    examine_sizes(arrays)?;
    for v in 0..arrays.priorities.len() as u32 {
        examine_vertex(arrays, v)?;
    }
    Ok(())
}

/// Appends a vertex to those before it.
fn add_vertex(builder: &mut GameBuilder, arrays: &Arrays, v: u32) -> Result<(), ArenaFault>
    requires spelled { SpellsGame (arrays_of arrays.now) }
    requires within { v < length arrays.now.priorities.now }
    requires before { builder.old ≡ map (vertex_of (arrays_of arrays.now)) (range_with_len 0 v) }
    ensures added { OnOk result (builder.new ≡ builder.old ++ vertex_of (arrays_of arrays.now) v ∷ []) }
    ensures fault { IfErr result (λ fault. fault ≡ ArenaFault.OutOfMemory) }
{
    let at = v as usize;
    let from = arrays.starts[at] as usize;
    let to = arrays.starts[at + 1] as usize;
    let row = &arrays.successors[from..to];
    let owner = player_of(arrays.owners[at]);
    builder.add(v, arrays.priorities[at], owner, row, None)
}

/// Returns the game of arrays that spell one. It fails only if memory runs out.
fn built(alloc: Global, arrays: &Arrays) -> Result<Game, ArenaFault>
    requires { SpellsGame (arrays_of arrays.now) }
    ensures game { IfOk result (λ game. game ≡ game_of (arrays_of arrays.now)) }
    ensures fault { IfErr result (λ fault. fault ≡ ArenaFault.OutOfMemory) }
{
    let mut builder = GameBuilder::new(alloc);
    for v in 0..arrays.priorities.len() as u32 {
        add_vertex(&mut builder, arrays, v)?;
    }
    builder.finish()
}

/// Returns the game of arrays that spell one, as `built` does, with its only fault as an `AllocError`.
pub(crate) fn build(alloc: Global, arrays: &Arrays) -> Result<Game, AllocError>
    requires { SpellsGame (arrays_of arrays.now) }
    ensures { IfOk result (λ game. game ≡ game_of (arrays_of arrays.now)) }
{
    match built(alloc, arrays) {
        Ok(game) => Ok(game),
        Err(_) => Err(AllocError),
    }
}

/// Makes the game that the arrays spell. It fails with the first fault in them, or with `OutOfMemory`.
pub fn game_of(alloc: Global, arrays: &Arrays) -> Result<Game, ArraysFault>
    ensures spelled { OnOk result (SpellsGame (arrays_of arrays.now)) }
    ensures game { IfOk result (λ game. game ≡ game_of (arrays_of arrays.now)) }
    ensures fault { IfErr result (RefusesGame (arrays_of arrays.now)) }
{
    examine(arrays)?;
    let game = build(alloc, arrays)?;
    Ok(game)
}
