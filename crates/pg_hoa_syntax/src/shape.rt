//! The six shapes of a parity condition.

ghost use Rattle.std.specs.Prelude.{◌≡◌, ◌<◌, ◌-◌, IfSome, IfNone, option_map};
ghost use Rattle.pg_hoa_syntax.specs.Mirrors.FormulaRun.{postfix};
ghost use Rattle.pg_hoa_automaton.specs.Formulas.{Formula};
ghost use Rattle.pg_hoa_automaton.specs.Shapes.{FitsShape, HasShape};
ghost use Rattle.pg_hoa_automaton.specs.Mirrors.Nests.{set_at, is_wanted};
ghost use Rattle.pg_hoa_syntax.specs.Mirrors.ShapeRun.{is_leaf, is_join, without_leaf, inner_at, only_leaf, fits_at, constant_at, nested_at};

use crate::formula::Op;
use pg_hoa_automaton::Shape;

/// Returns the set that has `inside` other sets nested in it.
fn set_at(shape: Shape, sets: u32, inside: u32) -> u32
    requires { inside < sets }
    ensures { result ≡ set_at shape sets inside }
{
    match shape {
        Shape::MinEven | Shape::MinOdd => sets - 1 - inside,
        _ => inside,
    }
}

/// Whether the shape wants the set to recur.
fn is_wanted(shape: Shape, set: u32) -> bool
    ensures { result ≡ is_wanted shape set }
{
    match shape {
        Shape::MaxEven | Shape::MinEven => set % 2 == 0,
        _ => set % 2 == 1,
    }
}

/// Whether the operation is `Inf` of the set if the set is wanted, or `Fin` of it if it is not.
fn is_leaf(op: Op, wanted: bool, set: u32) -> bool
    ensures { result ≡ is_leaf wanted set op }
{
    match op {
        Op::Inf(s) => wanted && s == set,
        Op::Fin(s) => !wanted && s == set,
        _ => false,
    }
}

/// Whether the operation joins the leaf of a set, wanted or not, with the operations nested in it.
fn is_join(op: Op, wanted: bool) -> bool
    ensures { result ≡ is_join wanted op }
{
    match op {
        Op::Either => wanted,
        Op::Both => !wanted,
        _ => false,
    }
}

/// Returns two operands without the leaf, which is one of them, or None if neither is the leaf. If the leaf is at both
/// ends, the one at the start is removed: the rest then has the leaf once more, and so has no shape either way.
#[tactic(auto, unfolding(crate::specs::Mirrors::ShapeRun::without_leaf))]
fn without_leaf(operands: &[Op], wanted: bool, set: u32) -> Option<&[Op]>
    ensures { option_map (λ ops. ops.now) result ≡ without_leaf wanted set operands.now }
{
    let (front, behind) = operands.split_first()?;
    if is_leaf(*front, wanted, set) {
        return Some(behind);
    }
    let (back, before) = operands.split_last()?;
    if is_leaf(*back, wanted, set) {
        Some(before)
    } else {
        None
    }
}

/// Returns the operations that the leaf of the set is joined with, if it is joined with any.
#[tactic(auto, unfolding(crate::specs::Mirrors::ShapeRun::inner_at))]
fn inner(ops: &[Op], wanted: bool, set: u32) -> Option<&[Op]>
    ensures { option_map (λ ops. ops.now) result ≡ inner_at wanted set ops.now }
{
    let (last, operands) = ops.split_last()?;
    if is_join(*last, wanted) {
        without_leaf(operands, wanted, set)
    } else {
        None
    }
}

/// Whether the leaf is the only operation.
fn only_leaf(ops: &[Op], wanted: bool, set: u32) -> bool
    ensures { result ≡ only_leaf wanted set ops.now }
{
    match ops {
        [op] => is_leaf(*op, wanted, set),
        _ => false,
    }
}

/// Whether the operations have the shape, with each set in its place from the outermost to the innermost.
fn fits(ops: &[Op], sets: u32, shape: Shape) -> bool
    requires { 0 < sets }
    ensures { result ≡ fits_at shape sets ops.now }
{
    let mut rest = ops;
    let mut inside = sets - 1;
    while inside > 0 {
        let set = set_at(shape, sets, inside);
        match inner(rest, is_wanted(shape, set), set) {
            Some(ops) => rest = ops,
            None => return false,
        }
        inside -= 1;
    }
    let set = set_at(shape, sets, 0);
    only_leaf(rest, is_wanted(shape, set), set)
}

/// Returns the shape of a condition over no sets, if it has one.
fn constant_shape(ops: &[Op]) -> Option<Shape>
    ensures { result ≡ constant_at ops.now }
{
    match ops {
        [Op::Yes] => Some(Shape::Always),
        [Op::No] => Some(Shape::Never),
        _ => None,
    }
}

/// Returns the first shape that fits a condition over at least one set, if there is one.
fn nested_shape(ops: &[Op], sets: u32) -> Option<Shape>
    requires { 0 < sets }
    ensures { result ≡ nested_at sets ops.now }
{
    if fits(ops, sets, Shape::MaxEven) {
        Some(Shape::MaxEven)
    } else if fits(ops, sets, Shape::MaxOdd) {
        Some(Shape::MaxOdd)
    } else if fits(ops, sets, Shape::MinEven) {
        Some(Shape::MinEven)
    } else if fits(ops, sets, Shape::MinOdd) {
        Some(Shape::MinOdd)
    } else {
        None
    }
}

/// Returns the first shape that fits a condition over `sets` sets, up to brackets and the order of two operands, if
/// there is one.
pub fn shape_of(ops: &[Op], sets: u32) -> Option<Shape>
    ensures found { (f : Formula) → postfix f ≡ ops.now → IfSome result (λ shape. HasShape f sets shape) }
    ensures none { (f : Formula) → postfix f ≡ ops.now → IfNone result ((shape : Shape) → FitsShape f sets shape → ⊥) }
{
    if sets == 0 {
        constant_shape(ops)
    } else {
        nested_shape(ops, sets)
    }
}
