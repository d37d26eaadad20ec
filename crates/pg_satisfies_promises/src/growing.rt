//! Lists of nodes that grow.

ghost use Rattle.std.specs.Prelude.{◌≡◌, ◌≤◌, ◌<◌, ◌∷◌, [], length, IfOk};
ghost use Rattle.pg_ltl.specs.Mirrors.Nodes.{normal_node_in, normal_reach, AreNormalNodes};
ghost use Rattle.pg_satisfies_promises.specs.Mirrors.Growing.{AddsNode};

use pg_ltl::NormalNode;
use std::alloc::{AllocError, Global};

/// Returns the node at a place.
pub fn node_at(nodes: &[NormalNode], place: usize) -> NormalNode
    requires { place < length nodes.now }
    ensures { result ≡ normal_node_in nodes.now place }
{
    nodes[place]
}

/// Appends a node and returns its place.
pub fn put(nodes: &mut Vec<NormalNode>, node: NormalNode) -> Result<usize, AllocError>
    requires ordered { AreNormalNodes nodes.old.items }
    requires reach { normal_reach node ≤ length nodes.old.items }
    ensures { IfOk result (AddsNode nodes.old.items nodes.new.items node) }
{
    let place = nodes.len();
    nodes.push(node)?;
    Ok(place)
}

/// Whether the list may grow by this many nodes.
pub fn has_room(nodes: &[NormalNode], count: usize, limit: usize) -> bool {
    count <= limit.saturating_sub(nodes.len())
}

/// Returns a list of one place.
pub fn alone(alloc: Global, place: usize) -> Result<Vec<usize>, AllocError>
    ensures { IfOk result (λ list. list.items ≡ place ∷ []) }
{
    let mut list = Vec::new(alloc);
    list.push(place)?;
    Ok(list)
}
