//! Which vertices rose since none could be lifted, and the look at those that lead to them.

ghost use Rattle.std.specs.Prelude.{◌≡◌, ◌++◌, ◌∷◌, [], ◌↔◌, ◌<◌, true, false, length, IfOk, All, Any, IfSome, IfNone, IsSome, IsTrue};
ghost use Rattle.pg_map.specs.Lines.{AreWithin};
ghost use Rattle.pg_map.specs.Maps.{IsServed, IsServedBy};
ghost use Rattle.pg_map_lift.specs.Mirrors.Watches.{AreServed, sources_of};

use crate::predecessors::Predecessors;
use pg_arena::{Player, Vertex};
use pg_map::{Lines, MeasureMap};
use std::alloc::{AllocError, Global};

/// The vertices that rose since none could be lifted, one entry for each rise, while there is room. The watch is off while they
/// aren't known.
#[derive(Drop)]
pub(crate) struct Watch {
    pub risen: Vec<Vertex>,
    pub is_on: bool,
}

impl Watch {
    /// Makes a watch with room for `count` rises, which is off. Only this takes memory.
    pub fn new(alloc: Global, count: u32) -> Result<Watch, AllocError>
        ensures { IfOk result (λ w. w.is_on ≡ false) }
    {
        Ok(Watch {
            risen: Vec::with_capacity(alloc, count as usize)?,
            is_on: false,
        })
    }

    /// Notes that a vertex rose. If no room is left, the watch goes off, since a look at all vertices then costs no more than what
    /// was lifted.
    pub fn push(&mut self, v: Vertex)
        ensures { self.new.is_on ≡ true → (self.old.is_on ≡ true)
            × (self.new.risen.items ≡ self.old.risen.items ++ v ∷ []) }
    {
        if !self.is_on {
            return;
        }
        if self.risen.len() < self.risen.capacity() {
            self.risen.push_reserved(v);
        } else {
            self.is_on = false;
        }
    }

    /// Begins anew, when no vertex can be lifted.
    pub fn begin(&mut self)
        ensures none { self.new.risen.items ≡ [] }
    {
        self.risen.clear();
        self.is_on = true;
    }
}

/// Whether a vertex is served by one of the others.
fn is_served_by_one<G: Lines>(map: &MeasureMap, lines: &G, v: Vertex, others: &[Vertex]) -> bool
    requires held { IsSome (G.line lines.now v) }
    requires v { v < length map.now.measures }
    requires others { All (λ w. w < length map.now.measures) others.now }
    ensures { IsTrue result ↔ Any (IsServedBy map.now.bounds (G.line lines.now) map.now.measures v) others.now }
{
    for w in others {
        if map.serves(lines, v, *w) {
            return true;
        }
    }
    false
}

/// Whether a vertex is served by each of the others.
fn is_served_by_each<G: Lines>(map: &MeasureMap, lines: &G, v: Vertex, others: &[Vertex]) -> bool
    requires held { IsSome (G.line lines.now v) }
    requires v { v < length map.now.measures }
    requires others { All (λ w. w < length map.now.measures) others.now }
    ensures { IsTrue result ↔ All (IsServedBy map.now.bounds (G.line lines.now) map.now.measures v) others.now }
{
    for w in others {
        if !map.serves(lines, v, *w) {
            return false;
        }
    }
    true
}

/// Whether a vertex is served.
pub(crate) fn is_served<G: Lines>(map: &MeasureMap, lines: &G, v: Vertex) -> bool
    requires held { IsSome (G.line lines.now v) }
    requires within { AreWithin (length map.now.measures) (G.line lines.now) }
    ensures { IsTrue result ↔ IsServed map.now.bounds (G.line lines.now) map.now.measures v }
{
    match lines.owner(v) {
        Player::Even => is_served_by_one(map, lines, v, lines.successors(v)),
        Player::Odd => is_served_by_each(map, lines, v, lines.successors(v)),
    }
}

/// Returns the first of the vertices that can be lifted.
pub(crate) fn liftable_of<G: Lines>(
    map: &MeasureMap,
    lines: &G,
    vertices: &[Vertex],
) -> Option<Vertex>
    requires { AreWithin (length map.now.measures) (G.line lines.now) }
    ensures liftable { IfSome result (λ v. IsSome (G.line lines.now v)
        × ¬ (IsServed map.now.bounds (G.line lines.now) map.now.measures v)) }
    ensures served { IfNone result (AreServed map.now.bounds (G.line lines.now) map.now.measures vertices.now) }
{
    for v in vertices {
        if lines.holds(*v) && !is_served(map, lines, *v) {
            return Some(*v);
        }
    }
    None
}

/// Returns a vertex that can be lifted among those that lead to one of the risen vertices.
pub(crate) fn liftable_before<G: Lines>(
    map: &MeasureMap,
    lines: &G,
    predecessors: &Predecessors,
    risen: &[Vertex],
) -> Option<Vertex>
    requires { AreWithin (length map.now.measures) (G.line lines.now) }
    ensures liftable { IfSome result (λ v. IsSome (G.line lines.now v)
        × ¬ (IsServed map.now.bounds (G.line lines.now) map.now.measures v)) }
    ensures served { IfNone result (All (λ x. AreServed map.now.bounds (G.line lines.now) map.now.measures
        (sources_of predecessors.now.starts.items predecessors.now.sources.items x)) risen.now) }
{
    for x in risen {
        if let Some(v) = liftable_of(map, lines, predecessors.of(*x)) {
            return Some(v);
        }
    }
    None
}
