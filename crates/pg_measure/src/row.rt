//! Measures stored in rows of numbers: a mark, 0 for a list and 1 for top, followed by the components. The rows of a map are in one
//! table, so these functions take slices.

ghost use Rattle.std.specs.Prelude.{◌≡◌, ◌↔◌, ℕ, ◌+◌, ◌<◌, ◌≤◌, length, take, AllPairs, IsTrue, MatchBool};
ghost use Rattle.pg_measure.specs.Measures.{ListFits, Fits, ListBelow, ListAtMost, CoversFront, width_from, AreBounds};
ghost use Rattle.pg_measure.specs.Mirrors.Rows.{IsLeastCover, measure_of, cleared, FrontAtMost, MissesFront};

/// This many numbers are compared one by one before the rest is compared in strides, because most measures differ early.
const NEAR: usize = 16;

/// Returns how many bounds have a priority of at least `p`. Their priorities must be odd and fall, and each must have a vertex.
pub fn width_from(bounds: &[(u32, u32)], p: u32) -> usize
    requires { AreBounds bounds.now }
    ensures value { result ≡ width_from bounds.now p }
    ensures within { result ≤ length bounds.now }
{
    bounds.partition_point(|b| b.0 >= p)
}

/// Returns the first `width` numbers, or all of them if there are fewer.
pub fn first(list: &[u32], width: usize) -> &[u32]
    ensures { result.now ≡ take width list.now }
{
    if width < list.len() {
        &list[..width]
    } else {
        list
    }
}

/// Whether a list has a component for each of the bounds, none of them above its bound.
pub fn fits(list: &[u32], bounds: &[(u32, u32)]) -> bool
    ensures { IsTrue result ↔ ListFits bounds.now list.now }
{
    if list.len() != bounds.len() {
        return false;
    }
    for i in 0..list.len() {
        if list[i] > bounds[i].1 {
            return false;
        }
    }
    true
}

/// Sets every number from index `from` on to 0. `from` must be at most the row's length.
pub fn clear_from(row: &mut [u32], from: usize)
    requires { from ≤ length row.old }
    ensures { row.new ≡ cleared from row.old }
{
    if from < row.len() {
        row[from..].fill(0);
    }
}

/// Changes the row to the least measure within the bounds that covers the row in its first `width` components, strictly if `strict`. A
/// row at top stays as it is. The row must hold a measure within the bounds, and `width` must be at most their number.
pub fn step(row: &mut [u32], bounds: &[(u32, u32)], width: usize, strict: bool)
    requires length { length row.old ≡ length bounds.now + 1 }
    requires width { width ≤ length bounds.now }
    requires fits { Fits bounds.now (measure_of row.old) }
    ensures length { length row.new ≡ length row.old }
    ensures least { IsLeastCover bounds.now strict width (measure_of row.old) (measure_of row.new) }
{
    if row[0] != 0 {
        return;
    }
    let mut at = width;
    if strict {
        while at > 0 && row[at] >= bounds[at - 1].1 {
            at -= 1;
        }
        row[at] += 1;
    }
    clear_from(row, at + 1);
}

/// Whether the first list is below the second in lexicographic order. Both must have the same length.
pub fn is_below(a: &[u32], b: &[u32]) -> bool
    requires { length a.now ≡ length b.now }
    ensures { MatchBool result (ListBelow a.now b.now) (ListAtMost b.now a.now) }
{
    let near = a.len().min(NEAR);
    for i in 0..near {
        if a[i] != b[i] {
            return a[i] < b[i];
        }
    }
    if near == a.len() {
        return false;
    }
    a[near..].cmp(&b[near..]).is_lt()
}

/// Whether the first row's first `width` components are below the second row's in lexicographic order. Top is above every list.
#[inline(always)]
pub fn is_front_below(a: &[u32], b: &[u32], width: usize) -> bool
    requires first { width < length a.now }
    requires second { width < length b.now }
    ensures { MatchBool result (FrontAtMost width (measure_of a.now) (measure_of b.now))
        (FrontAtMost width (measure_of b.now) (measure_of a.now)) }
{
    if a[0] != 0 {
        return false;
    }
    is_below(&a[..width + 1], &b[..width + 1])
}

/// Whether the first row covers the second in the first `width` components, strictly if `strict`. Top covers every row.
#[inline(always)]
pub fn covers(a: &[u32], b: &[u32], width: usize, strict: bool) -> bool
    requires first { width < length a.now }
    requires second { width < length b.now }
    ensures { MatchBool result (CoversFront strict width (measure_of a.now) (measure_of b.now))
        (MissesFront strict width (measure_of a.now) (measure_of b.now)) }
{
    if a[0] != 0 {
        return true;
    }
    let a = &a[..width + 1];
    let b = &b[..width + 1];
    if strict {
        is_below(b, a)
    } else {
        !is_below(a, b)
    }
}
