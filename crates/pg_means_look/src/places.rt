//! Sets of places, as rising lists.

ghost use Rattle.std.specs.Prelude.{◌<◌, ◌⊎◌, All, Contains, IfOk, OnOk};
ghost use Rattle.std.specs.Bool.{OnTrue};

use std::alloc::{AllocError, Global};

/// Returns the first index from `from` on whose place is at least `place`, or the length of the list if there is none.
fn seek(places: &[usize], from: usize, place: usize) -> usize {
    let mut j = from;
    while j < places.len() && places[j] < place {
        j += 1;
    }
    j
}

/// Whether each of `few` is one of `many`.
pub(crate) fn is_within(few: &[usize], many: &[usize]) -> bool
    ensures { OnTrue result (All (Contains many.now) few.now) }
{
    let mut from = 0;
    for place in few {
        from = seek(many, from, *place);
        if from >= many.len() || many[from] != *place {
            return false;
        }
    }
    true
}

/// Whether the place is one of `places`.
pub(crate) fn has(places: &[usize], place: usize) -> bool
    ensures { OnTrue result (Contains places.now place) }
{
    let at = seek(places, 0, place);
    at < places.len() && places[at] == place
}

/// Whether all places are below `bound`.
pub fn are_below(places: &[usize], bound: usize) -> bool
    ensures { OnTrue result (All (λ place. place < bound) places.now) }
{
    for place in places {
        if *place >= bound {
            return false;
        }
    }
    true
}

/// Appends to `out` the places from index `from` on that are below the limit, and returns the index of the rest.
fn push_below(
    out: &mut Vec<usize>,
    places: &[usize],
    from: usize,
    limit: usize,
) -> Result<usize, AllocError>
    ensures { OnOk result (All (λ x. Contains out.old.items x ⊎ Contains places.now x) out.new.items) }
{
    let mut j = from;
    while j < places.len() && places[j] < limit {
        out.push(places[j])?;
        j += 1;
    }
    Ok(j)
}

/// Returns the places that are in at least one of the lists.
pub(crate) fn union(alloc: Global, a: &[usize], b: &[usize]) -> Result<Vec<usize>, AllocError>
    ensures { IfOk result (λ u. All (λ x. Contains a.now x ⊎ Contains b.now x) u.items) }
{
    let mut out = Vec::new(alloc);
    let mut j = 0;
    for place in a {
        j = push_below(&mut out, b, j, *place)?;
        if j < b.len() && b[j] == *place {
            j += 1;
        }
        out.push(*place)?;
    }
    let _end = push_below(&mut out, b, j, usize::MAX)?;
    Ok(out)
}
