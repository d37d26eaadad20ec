//! Growth before a change, so that the change can't fail half way.

ghost use Rattle.std.specs.Prelude.{◌≡◌, ◌<◌, ◌∷◌, ◌++◌, [], OnOk, IfSome, length, map, vec_len, vec_capacity, slice_get, slice_set, slice_index_or};

use pg_map::Update;
use std::alloc::AllocError;

/// Makes room for one more update, and for its number among those that the replica r took.
pub(crate) fn make_room(
    updates: &mut Vec<Update>,
    taken: &mut Vec<Vec<usize>>,
    r: usize,
) -> Result<(), AllocError>
    requires { r < length taken.old.items }
    ensures updates { updates.new.items ≡ updates.old.items }
    ensures taken { map (λ t. t.items) taken.new.items ≡ map (λ t. t.items) taken.old.items }
    ensures room { OnOk result (vec_len updates.new < vec_capacity updates.new) }
    ensures place { OnOk result (IfSome (slice_get taken.new.items r) (λ t. vec_len t < vec_capacity t)) }
{
    updates.reserve(1)?;
    taken[r].reserve(1)?;
    Ok(())
}

/// Adds an update, for which there is room.
pub(crate) fn push_in_room(updates: &mut Vec<Update>, update: Update)
    requires { vec_len updates.old < vec_capacity updates.old }
    ensures { updates.new.items ≡ updates.old.items ++ update ∷ [] }
{
    let _pushed = updates.push(update);
}

/// Adds a number, for which there is room, to those that the replica r took.
pub(crate) fn note(taken: &mut Vec<Vec<usize>>, r: usize, number: usize)
    requires r { r < length taken.old.items }
    requires place { IfSome (slice_get taken.old.items r) (λ t. vec_len t < vec_capacity t) }
    ensures { map (λ t. t.items) taken.new.items
        ≡ slice_set (map (λ t. t.items) taken.old.items) r
        (slice_index_or (map (λ t. t.items) taken.old.items) r [] ++ number ∷ []) }
{
    let _pushed = taken[r].push(number);
}

/// Forgets everything that the replica r took.
pub(crate) fn forget(taken: &mut Vec<Vec<usize>>, r: usize)
    requires { r < length taken.old.items }
    ensures { map (λ t. t.items) taken.new.items ≡ slice_set (map (λ t. t.items) taken.old.items) r [] }
{
    taken[r].clear();
}
