//! The tables of a ladder.

ghost use Rattle.std.specs.Prelude.{◌≡◌, ◌↔◌, ℕ, ◌+◌, ◌^◌, ◌<◌, ◌≤◌, length, IfOk, IfSome, IfNone, slice_index};
ghost use Rattle.pg_map_ranks.specs.Ladders.{step_at, IsLadder};
ghost use Rattle.pg_map_ranks.specs.Mirrors.Rungs.{IsBegin, IsEnd, IsBounded, IsCount, AreBegins, AreOrigins, AreEnds, AreCounts};

use crate::block::{block_begin, skip};
use pg_measure::Bounds;
use std::alloc::{AllocError, Global};

/// Returns, for each step, where the steps at lesser priorities right before it begin.
pub(crate) fn begins_of(alloc: Global, steps: &[u32]) -> Result<Vec<u32>, AllocError>
    requires { length steps.now + 2 < 2 ^ 32 }
    ensures { IfOk result (λ begins. AreBegins steps.now begins.items) }
{
    let mut begins = Vec::with_capacity(alloc, steps.len())?;
    for k in 0..steps.len() {
        let begin = block_begin(steps, &begins, steps[k], k);
        begins.push(begin as u32)?;
    }
    Ok(begins)
}

/// Returns, for each step, where the steps at no greater priorities right before it begin.
pub(crate) fn origins_of(
    alloc: Global,
    steps: &[u32],
    begins: &[u32],
) -> Result<Vec<u32>, AllocError>
    requires { AreBegins steps.now begins.now }
    ensures { IfOk result (λ origins. AreOrigins steps.now origins.items) }
{
    let mut origins = Vec::with_capacity(alloc, steps.len())?;
    for k in 0..steps.len() {
        let begin = begins[k] as usize;
        let origin = if begin > 0 && steps[begin - 1] == steps[k] {
            origins[begin - 1]
        } else {
            begins[k]
        };
        origins.push(origin)?;
    }
    Ok(origins)
}

/// Returns, for each step, where the steps at no greater priorities right after it end.
pub(crate) fn ends_of(alloc: Global, steps: &[u32]) -> Result<Vec<u32>, AllocError>
    requires { length steps.now + 2 < 2 ^ 32 }
    ensures { IfOk result (λ ends. AreEnds steps.now ends.items) }
{
    let mut ends = vec![in alloc; 0; steps.len()]?;
    let mut k = steps.len();
    while k > 0 {
        k -= 1;
        let end = skip(steps, &ends, steps[k], k + 1);
        ends[k] = end as u32;
    }
    Ok(ends)
}

/// Returns the bound of a priority, or 0 if it has none.
fn bound_of(bounds: &Bounds, priority: u32) -> u32
    ensures { (n : ℕ) → 0 < n → (n ≤ result) ↔ IsBounded bounds.now priority n }
{
    let width = bounds.width_from(priority);
    if width == 0 {
        return 0;
    }
    let bound = bounds.pairs()[width - 1];
    if bound.0 == priority { bound.1 } else { 0 }
}

/// Returns the component that a step makes greater, as it is after the step, if it is within the bound.
fn count_of(bounds: &Bounds, steps: &[u32], begins: &[u32], counts: &[u32], k: usize) -> Option<u32>
    requires k { k < length steps.now }
    requires begins { AreBegins steps.now begins.now }
    requires counted { length counts.now ≡ k }
    requires earlier { (j : ℕ) → j < k → IsCount steps.now (slice_index counts.now j) j }
    ensures count { IfSome result (λ n. IsCount steps.now n k) }
    ensures bounded { IfSome result (λ n. IsBounded bounds.now (step_at steps.now k) n) }
    ensures none { IfNone result ((n : ℕ) → IsCount steps.now n k → ¬ IsBounded bounds.now (step_at steps.now k) n) }
{
    let begin = begins[k] as usize;
    let before = if begin > 0 && steps[begin - 1] == steps[k] {
        counts[begin - 1]
    } else {
        0
    };
    if before < bound_of(bounds, steps[k]) {
        Some(before + 1)
    } else {
        None
    }
}

/// Returns the component that each step makes greater, as it is after the step. Returns `None` exactly if the steps are no ladder
/// of the bounds.
pub(crate) fn counts_of(
    alloc: Global,
    bounds: &Bounds,
    steps: &[u32],
    begins: &[u32],
) -> Result<Option<Vec<u32>>, AllocError>
    requires { AreBegins steps.now begins.now }
    ensures counts { IfOk result (λ o. IfSome o (λ counts. AreCounts bounds.now steps.now counts.items)) }
    ensures none { IfOk result (λ o. IfNone o (¬ IsLadder bounds.now steps.now)) }
{
    let mut counts = Vec::with_capacity(alloc, steps.len())?;
    for k in 0..steps.len() {
        let Some(count) = count_of(bounds, steps, begins, &counts, k) else {
            return Ok(None);
        };
        counts.push(count)?;
    }
    Ok(Some(counts))
}
