//! Formulas on a lasso: whether each formula of a list holds at each place of it.

ghost use Rattle.std.specs.Prelude.{◌≡◌, ◌<◌, ◌≤◌, ℕ, Bool, true, List, IfOk, length, replicate, slice_index_or, ◌⊎◌};
ghost use Rattle.std.specs.Bool.{OnTrue};
ghost use Rattle.pg_ltl.specs.NormalForms.{NormalForm, until, Holds};
ghost use Rattle.pg_ltl.specs.Mirrors.Nodes.{normal_at, normal_reach, normal_in, normal_node_in, AreNormalNodes};
ghost use Rattle.pg_means_look.specs.Mirrors.Tables.{row_at, truth_at};
ghost use Rattle.pg_means_look.specs.Mirrors.Choices.{part, AreForms};
ghost use Rattle.pg_means_look.specs.Mirrors.Places.{behind, value_at, word_of, IsSound, AreSound, IsClosed};

use crate::automaton::holds;
use pg_ltl::NormalNode;
use std::alloc::{AllocError, Global};

/// Returns the node at a place.
pub(crate) fn node_at(nodes: &[NormalNode], place: usize) -> NormalNode
    requires { place < length nodes.now }
    ensures { result ≡ normal_node_in nodes.now place }
{
    nodes[place]
}

/// Returns the place after a place of a lasso: after the last one comes `back`.
pub(crate) fn behind(count: usize, back: usize, place: usize) -> usize
    requires { place < count }
    ensures { result ≡ behind count back place }
{
    if place + 1 == count { back } else { place + 1 }
}

/// Returns the values of a formula, by its place.
fn row(rows: &[Vec<bool>], place: usize) -> &[bool]
    requires { place < length rows.now }
    ensures { result.now ≡ row_at rows.now place }
{
    rows[place].as_slice()
}

/// Whether the values are equal.
fn is_same(a: bool, b: bool) -> bool
    ensures { result ≡ true → a ≡ b }
{
    a == b
}

fn value(values: &[bool], place: usize) -> bool
    ensures { result ≡ value_at values.now place }
{
    values.get(place).copied().unwrap_or(false)
}

/// Returns for each letter whether the literal holds there.
fn literal_values(
    alloc: Global,
    truths: &[Vec<bool>],
    letters: &[u32],
    proposition: u32,
    is_so: bool,
) -> Result<Vec<bool>, AllocError>
    ensures { IfOk result (λ values. (i : ℕ) → value_at values.items i ≡ true
        → (i < length letters.now) × (truth_at truths.now proposition (slice_index_or letters.now i 0) ≡ is_so)) }
{
    let mut values = Vec::new(alloc);
    for letter in letters {
        values.push(is_same(holds(truths, proposition, *letter), is_so))?;
    }
    Ok(values)
}

/// Returns the values of a conjunction: true where both operands are.
fn both_values(alloc: Global, left: &[bool], right: &[bool]) -> Result<Vec<bool>, AllocError>
    ensures { IfOk result (λ values. (i : ℕ) → value_at values.items i ≡ true
        → (value_at left.now i ≡ true) × (value_at right.now i ≡ true)) }
{
    let mut values = Vec::new(alloc);
    for i in 0..left.len() {
        values.push(left[i] && value(right, i))?;
    }
    Ok(values)
}

/// Returns the values of a disjunction: true where at least one of the operands is.
fn either_values(alloc: Global, left: &[bool], right: &[bool]) -> Result<Vec<bool>, AllocError>
    ensures { IfOk result (λ values. (i : ℕ) → value_at values.items i ≡ true
        → (value_at left.now i ≡ true) ⊎ (value_at right.now i ≡ true)) }
{
    let mut values = Vec::new(alloc);
    for i in 0..left.len() {
        values.push(left[i] || value(right, i))?;
    }
    Ok(values)
}

/// Returns the values of a Next: true where the operand is true at the next place.
fn next_values(
    alloc: Global,
    operand: &[bool],
    count: usize,
    back: usize,
) -> Result<Vec<bool>, AllocError>
    ensures { IfOk result (λ values. (i : ℕ) → value_at values.items i ≡ true → value_at operand.now (behind count back i) ≡ true) }
{
    let mut values = Vec::new(alloc);
    for i in 0..count {
        values.push(value(operand, behind(count, back, i)))?;
    }
    Ok(values)
}

/// Returns a list of `count` equal values.
fn all_same(alloc: Global, value: bool, count: usize) -> Result<Vec<bool>, AllocError>
    ensures { IfOk result (λ values. values.items ≡ replicate count value) }
{
    vec![in alloc; value; count]
}

/// Whether the right side is true, or the left side and the next value are.
fn is_until(right: bool, left: bool, later: bool) -> bool
    ensures { result ≡ true → (right ≡ true) ⊎ ((left ≡ true) × (later ≡ true)) }
{
    if right {
        return true;
    }
    left && later
}

/// Passes once over the places from the end, and sets a value to true where the right side is true, or the left side and the next value
/// are.
fn pass_until(mut values: Vec<bool>, left: &[bool], right: &[bool], back: usize) -> Vec<bool>
    ensures long { length result.items ≡ length values.items }
    ensures sound { (word : ℕ → ℕ → Bool) (f g : NormalForm) → IsSound (length values.items) back word f left.now
        → IsSound (length values.items) back word g right.now → IsSound (length values.items) back word (until f g) values.items
        → IsSound (length values.items) back word (until f g) result.items }
{
    let count = values.len();
    let mut i = count;
    while i > 0 {
        i -= 1;
        let later = value(&values, behind(count, back, i));
        if is_until(value(right, i), value(left, i), later) {
            values[i] = true;
        }
    }
    values
}

fn until_values(
    alloc: Global,
    left: &[bool],
    right: &[bool],
    count: usize,
    back: usize,
) -> Result<Vec<bool>, AllocError>
    ensures { IfOk result (λ values. (word : ℕ → ℕ → Bool) (f g : NormalForm) → IsSound count back word f left.now
        → IsSound count back word g right.now → IsSound count back word (until f g) values.items) }
{
    let none = all_same(alloc, false, count)?;
    let once = pass_until(none, left, right, back);
    Ok(pass_until(once, left, right, back))
}

/// Passes once over the places from the end, and sets a value to false where the right side is false, or the left side and the next value
/// are.
fn pass_release(mut values: Vec<bool>, left: &[bool], right: &[bool], back: usize) -> Vec<bool>
    ensures { length result.items ≡ length values.items }
{
    let count = values.len();
    let mut i = count;
    while i > 0 {
        i -= 1;
        if !value(right, i) || !value(left, i) && !value(&values, behind(count, back, i)) {
            values[i] = false;
        }
    }
    values
}

/// Whether at each true value the right side is true, and the left side or the next value is.
fn is_closed(values: &[bool], left: &[bool], right: &[bool], back: usize) -> bool
    ensures { OnTrue result (IsClosed back left.now right.now values.now) }
{
    for i in 0..values.len() {
        if values[i]
            && !(value(right, i)
                && (value(left, i) || value(values, behind(values.len(), back, i))))
        {
            return false;
        }
    }
    true
}

fn release_values(
    alloc: Global,
    left: &[bool],
    right: &[bool],
    count: usize,
    back: usize,
) -> Result<Vec<bool>, AllocError>
    ensures { IfOk result (λ values. (length values.items ≡ count) × IsClosed back left.now right.now values.items) }
{
    let all = all_same(alloc, true, count)?;
    let once = pass_release(all, left, right, back);
    let values = pass_release(once, left, right, back);
    if !is_closed(&values, left, right, back) {
        return all_same(alloc, false, count);
    }
    Ok(values)
}

/// Returns the values of the formula at a place of a list, by the values of the formulas before it.
fn values_of_node(
    alloc: Global,
    node: NormalNode,
    rows: &[Vec<bool>],
    truths: &[Vec<bool>],
    letters: &[u32],
    back: usize,
) -> Result<Vec<bool>, AllocError>
    requires back { back < length letters.now }
    requires operands { normal_reach node ≤ length rows.now }
    ensures { IfOk result (λ values. (forms : List NormalForm)
        → AreSound (length letters.now) back (word_of truths.now letters.now back) forms rows.now
        → part forms (length rows.now) ≡ normal_at forms node
        → IsSound (length letters.now) back (word_of truths.now letters.now back) (part forms (length rows.now)) values.items) }
{
    let count = letters.len();
    match node {
        NormalNode::Top => all_same(alloc, true, count),
        NormalNode::Bottom => all_same(alloc, false, count),
        NormalNode::Literal(p, is_so) => literal_values(alloc, truths, letters, p, is_so),
        NormalNode::Both(a, b) => both_values(alloc, row(rows, a), row(rows, b)),
        NormalNode::Either(a, b) => either_values(alloc, row(rows, a), row(rows, b)),
        NormalNode::Next(a) => next_values(alloc, row(rows, a), count, back),
        NormalNode::Until(a, b) => until_values(alloc, row(rows, a), row(rows, b), count, back),
        NormalNode::Release(a, b) => release_values(alloc, row(rows, a), row(rows, b), count, back),
    }
}

/// Whether the formula at the place `root` of a list holds on a lasso. Only `true` is proved, but `false` is right too.
pub fn holds_on(
    alloc: Global,
    nodes: &[NormalNode],
    root: usize,
    truths: &[Vec<bool>],
    letters: &[u32],
    back: usize,
) -> Result<bool, AllocError>
    requires back { back < length letters.now }
    requires ordered { AreNormalNodes nodes.now }
    ensures { IfOk result (λ yes. OnTrue yes (Holds (word_of truths.now letters.now back) (normal_in nodes.now root) 0)) }
{
    let mut rows = Vec::new(alloc);
    for place in 0..nodes.len() {
        let node = node_at(nodes, place);
        let values = values_of_node(alloc, node, &rows, truths, letters, back)?;
        rows.push(values)?;
    }
    if root >= rows.len() {
        return Ok(false);
    }
    Ok(value(row(&rows, root), 0))
}
