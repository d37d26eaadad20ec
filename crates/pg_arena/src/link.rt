//! Turns successors that are identifiers into vertices, in place.

ghost use Rattle.std.specs.Prelude.{◌≡◌, ◌<◌, ◌≤◌, [], length, map, not, slice_index, All, IsTrue, IsFalse};
ghost use Rattle.std.specs.List.Sorted.{IsStrictlyIncreasing};
ghost use Rattle.pg_arena.specs.Mirrors.Entries.{HaveRanges, rows_in};
ghost use Rattle.pg_arena.specs.Mirrors.Links.{is_among, AreLinked, HasUnknown, unknown_in, first_unknown_in};

use crate::entry::Entry;
use crate::limits::MAX_VERTICES;
use crate::place::place_of;
use crate::vertex::Vertex;

/// Replaces each target, an identifier, with the vertex that has it, and returns true. If no vertex has one of them,
/// all stay identifiers and it returns false.
pub(crate) fn link(identifiers: &[u32], targets: &mut [Vertex]) -> bool
    requires few { length identifiers.now ≤ MAX_VERTICES }
    requires rising { IsStrictlyIncreasing identifiers.now }
    ensures linked { IsTrue result → AreLinked identifiers.now targets.old targets.new }
    ensures unknown { IsFalse result → HasUnknown identifiers.now targets.old }
    ensures same { IsFalse result → targets.new ≡ targets.old }
{
    for k in 0..targets.len() {
        let target = targets[k];
        match place_of(identifiers, target.0) {
            Some(place) => targets[k] = Vertex(place as u32),
            None => {
                unlink(identifiers, &mut targets[..k]);
                return false;
            }
        }
    }
    true
}

/// Replaces each vertex with its identifier again.
fn unlink(identifiers: &[u32], targets: &mut [Vertex])
    requires { All (λ v. v < length identifiers.now) targets.old }
    ensures { targets.new ≡ map (slice_index identifiers.now) targets.old }
{
    for target in targets.iter_mut() {
        *target = Vertex(identifiers[target.0 as usize]);
    }
}

/// Returns the identifier of the first vertex with a successor that is no vertex, and the first such successor, if
/// there is one. The targets are identifiers.
pub(crate) fn first_unknown(
    identifiers: &[u32],
    entries: &[Entry],
    targets: &[Vertex],
) -> Option<(u32, u32)>
    requires as_many { length identifiers.now ≡ length entries.now }
    requires within { HaveRanges targets.now entries.now }
    requires rising { IsStrictlyIncreasing identifiers.now }
    ensures { result ≡ first_unknown_in identifiers.now targets.now (rows_in identifiers.now [] entries.now) }
{
    for (v, entry) in entries.iter().enumerate() {
        let successors = &targets[entry.from as usize..entry.to as usize];
        if let Some(successor) = unknown_in(identifiers, successors) {
            return Some((identifiers[v], successor));
        }
    }
    None
}

fn unknown_in(identifiers: &[u32], successors: &[Vertex]) -> Option<u32>
    requires { IsStrictlyIncreasing identifiers.now }
    ensures { result ≡ unknown_in identifiers.now successors.now }
{
    successors
        .iter()
        .map(|successor| successor.0)
        .find(|successor| is_unknown(identifiers, *successor))
}

fn is_unknown(identifiers: &[u32], identifier: u32) -> bool
    requires { IsStrictlyIncreasing identifiers.now }
    ensures { result ≡ not (is_among identifiers.now identifier) }
{
    place_of(identifiers, identifier).is_none()
}
