//! Blocks of a ladder: runs of rows that agree in the components of priorities at least some priority.

ghost use Rattle.std.specs.Prelude.{◌≡◌, ℕ, ◌+◌, ◌^◌, ◌<◌, ◌≤◌, length, slice_index};
ghost use Rattle.pg_map_ranks.specs.Mirrors.Blocks.{IsBlockFrom, IsBlockTo, IsHigh, IsLow, IsPast};
ghost use Rattle.pg_map_ranks.specs.Mirrors.Rungs.{IsBegin, IsEnd, AreBegins, AreBlocks};

/// Returns the beginning of the block that ends with a rank: the rank itself if it is made by a step at a priority that is no less.
pub(crate) fn block_begin(steps: &[u32], begins: &[u32], priority: u32, rank: usize) -> usize
    requires rank { rank ≤ length begins.now }
    requires within { length begins.now ≤ length steps.now }
    requires begins { (k : ℕ) → k < rank → IsBegin steps.now (slice_index begins.now k) k }
    ensures { IsBlockTo steps.now priority rank result }
{
    let mut first = rank;
    while first > 0 && steps[first - 1] < priority {
        first = begins[first - 1] as usize;
    }
    first
}

/// Skips the steps from `from` on that are at priorities of at most `most`. Returns the first step after them, or the number of
/// steps.
pub(crate) fn skip(steps: &[u32], ends: &[u32], most: u32, from: usize) -> usize
    requires from { from ≤ length steps.now }
    requires each { length ends.now ≡ length steps.now }
    requires ends { (k : ℕ) → from ≤ k → k < length steps.now → IsEnd steps.now (slice_index ends.now k) k }
    ensures { IsPast steps.now most from result }
{
    let mut end = from;
    while end < steps.len() && steps[end] <= most {
        end = ends[end] as usize;
    }
    end
}

/// Returns the end of the block that begins at a rank. The hint may name the greatest step of the block, whose own end is the end
/// of the block.
fn block_end(
    steps: &[u32],
    begins: &[u32],
    ends: &[u32],
    priority: u32,
    rank: usize,
    hint: usize,
) -> usize
    requires blocks { AreBlocks steps.now begins.now ends.now }
    requires rank { rank ≤ length steps.now }
    ensures { IsBlockFrom steps.now priority rank result }
{
    if priority == 0 {
        return rank + 1;
    }
    let mut from = rank;
    if hint >= rank
        && hint < steps.len()
        && steps[hint] < priority
        && begins[hint] as usize <= rank
    {
        from = ends[hint] as usize;
    }
    skip(steps, ends, priority - 1, from) + 1
}

/// Returns the rank below which the row of a rank covers the ranks at a priority. It covers no others.
pub(crate) fn high_of(
    steps: &[u32],
    begins: &[u32],
    ends: &[u32],
    priority: u32,
    rank: u32,
    hint: u32,
) -> u32
    requires blocks { AreBlocks steps.now begins.now ends.now }
    requires list { rank ≤ length steps.now }
    ensures { IsHigh steps.now priority rank result }
{
    let high = if priority % 2 == 0 {
        block_end(steps, begins, ends, priority, rank as usize, hint as usize)
    } else {
        block_begin(steps, begins, priority, rank as usize)
    };
    high as u32
}

/// Returns the rank from which on ranks justify this one at a priority. If its row has components below the priority, only top
/// does.
pub(crate) fn low_of(steps: &[u32], begins: &[u32], priority: u32, rank: u32) -> u32
    requires few { length steps.now + 2 < 2 ^ 32 }
    requires begins { AreBegins steps.now begins.now }
    ensures { IsLow steps.now priority rank result }
{
    let top = steps.len() as u32 + 1;
    if rank == 0 || rank >= top {
        return rank.min(top);
    }
    let step = steps[rank as usize - 1];
    if step < priority {
        top
    } else if step == priority && priority % 2 == 1 {
        begins[rank as usize - 1]
    } else {
        rank
    }
}
