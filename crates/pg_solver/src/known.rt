//! What the map of one side of a game says about the other side.

ghost use Rattle.std.specs.Prelude.{IfOk};
ghost use Rattle.pg_solver.specs.Mirrors.Known.{AreKnownFrom};

use pg_arena::Vertex;
use pg_map::Measures;
use pg_map_ranks::RankMap;
use std::alloc::{AllocError, Global};

/// Returns for each vertex whether the other side is known to have top there, which is so if the map has a list.
pub(crate) fn known_from(alloc: Global, map: &RankMap) -> Result<Vec<bool>, AllocError>
    ensures { IfOk result (λ known. AreKnownFrom map.now.measures known.items) }
{
    let mut known = Vec::with_capacity(alloc, map.len() as usize)?;
    for number in 0..map.len() {
        known.push(!map.is_top(Vertex(number)))?;
    }
    Ok(known)
}
