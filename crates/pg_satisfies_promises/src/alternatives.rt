//! The alternatives of a formula: where it holds, one of them does.

ghost use Rattle.std.specs.Prelude.{◌≡◌, ◌<◌, ◌∷◌, [], ◌++◌, ◌⊎◌, length, IfOk};
ghost use Rattle.pg_ltl.specs.declared.normal.NormalNode.TheVariants.{Both};
ghost use Rattle.pg_ltl.specs.Mirrors.Nodes.{normal_node_in, AreNormalNodes};
ghost use Rattle.pg_means_look.specs.Mirrors.Tables.{row_at};
ghost use Rattle.pg_satisfies_promises.specs.Mirrors.Alternatives.{framed_node, AreRowsWithin, AddsAlternatives, AddsAllAlternatives};

use crate::frame::{OperandFrame, frame_each, products};
use crate::growing::{alone, has_room, node_at};
use crate::marks::Marks;
use pg_ltl::NormalNode;
use std::alloc::{AllocError, Global};

/// The most alternatives of a formula.
const MOST_ALTERNATIVES: usize = 256;

/// The most alternatives that the alternatives of both sides of a conjunction are combined to.
const MOST_PRODUCTS: usize = 64;

/// The nodes that such combinations leave room for, so that long assumptions don't keep the guarantees from being split.
const RESERVE: usize = 8_192;

fn row(rows: &[Vec<usize>], place: usize) -> &[usize]
    requires { place < length rows.now }
    ensures { result.now ≡ row_at rows.now place }
{
    rows[place].as_slice()
}

/// Whether the formula at the place is its only alternative.
fn is_whole(alternatives: &[usize], place: usize) -> bool {
    matches!(alternatives, [only] if *only == place)
}

/// Returns the alternatives of the disjunction at a place: those of both sides, or only the disjunction itself if they are too many.
fn split_either(
    alloc: Global,
    rows: &[Vec<usize>],
    place: usize,
    left: usize,
    right: usize,
) -> Result<Vec<usize>, AllocError>
    requires left { left < length rows.now }
    requires right { right < length rows.now }
    ensures { IfOk result (λ list. (list.items ≡ place ∷ []) ⊎ (list.items ≡ row_at rows.now left ++ row_at rows.now right)) }
{
    let lefts = row(rows, left);
    let rights = row(rows, right);
    if lefts.len().saturating_add(rights.len()) > MOST_ALTERNATIVES {
        return alone(alloc, place);
    }
    let mut list = Vec::from_slice(alloc, lefts)?;
    list.extend_from_slice(rights)?;
    Ok(list)
}

/// Returns the alternatives of a node that is a frame around an operand: the frame around each of the operand's alternatives.
fn split_operand(
    alloc: Global,
    nodes: &mut Vec<NormalNode>,
    rows: &[Vec<usize>],
    place: usize,
    frame: OperandFrame,
    operand: usize,
    limit: usize,
) -> Result<Vec<usize>, AllocError>
    requires ordered { AreNormalNodes nodes.old.items }
    requires place { place < length nodes.old.items }
    requires rows { AreRowsWithin nodes.old.items rows.now }
    requires operand { operand < length rows.now }
    requires is { normal_node_in nodes.old.items place ≡ framed_node frame operand }
    ensures { IfOk result (λ list. AddsAlternatives nodes.old.items nodes.new.items rows.now place list.items) }
{
    let operands = row(rows, operand);
    if is_whole(operands, operand) || !has_room(nodes, operands.len(), limit) {
        return alone(alloc, place);
    }
    let mut list = Vec::new(alloc);
    frame_each(nodes, frame, operands, &mut list)?;
    Ok(list)
}

/// Returns the alternatives of a conjunction: each alternative of one side with each of the other side. If these are too many, splits only
/// the right side.
fn split_both(
    alloc: Global,
    nodes: &mut Vec<NormalNode>,
    rows: &[Vec<usize>],
    place: usize,
    left: usize,
    right: usize,
    limit: usize,
) -> Result<Vec<usize>, AllocError>
    requires ordered { AreNormalNodes nodes.old.items }
    requires place { place < length nodes.old.items }
    requires rows { AreRowsWithin nodes.old.items rows.now }
    requires left { left < length rows.now }
    requires right { right < length rows.now }
    requires is { normal_node_in nodes.old.items place ≡ Both left right }
    ensures { IfOk result (λ list. AddsAlternatives nodes.old.items nodes.new.items rows.now place list.items) }
{
    let lefts = row(rows, left);
    let rights = row(rows, right);
    let count = lefts.len().saturating_mul(rights.len());
    let is_small = count <= MOST_PRODUCTS && has_room(nodes, count + RESERVE, limit);
    if is_whole(lefts, left) || !is_small {
        return split_operand(
            alloc,
            nodes,
            rows,
            place,
            OperandFrame::Both(left),
            right,
            limit,
        );
    }
    products(alloc, nodes, lefts, rights)
}

/// Returns the alternatives of the node at a place, by those of the nodes before it, or only the node itself if they aren't needed.
fn split(
    alloc: Global,
    nodes: &mut Vec<NormalNode>,
    rows: &[Vec<usize>],
    place: usize,
    is_needed: bool,
    limit: usize,
) -> Result<Vec<usize>, AllocError>
    requires ordered { AreNormalNodes nodes.old.items }
    requires place { place < length nodes.old.items }
    requires rows { AreRowsWithin nodes.old.items rows.now }
    requires before { place ≡ length rows.now }
    ensures { IfOk result (λ list. AddsAlternatives nodes.old.items nodes.new.items rows.now place list.items) }
{
    if !is_needed {
        return alone(alloc, place);
    }
    match node_at(nodes, place) {
        NormalNode::Either(a, b) => split_either(alloc, rows, place, a, b),
        NormalNode::Both(a, b) => split_both(alloc, nodes, rows, place, a, b, limit),
        NormalNode::Next(a) => split_operand(
            alloc,
            nodes,
            rows,
            place,
            OperandFrame::Next,
            a,
            limit,
        ),
        NormalNode::Until(a, b) => {
            split_operand(alloc, nodes, rows, place, OperandFrame::Until(a), b, limit)
        }
        NormalNode::Top | NormalNode::Bottom | NormalNode::Literal(..) | NormalNode::Release(..) =>
            alone(alloc, place),
    }
}

/// Returns the places whose alternatives are needed for those of the root.
fn needed_for(alloc: Global, nodes: &[NormalNode], root: usize) -> Result<Marks, AllocError> {
    let mut needed = Marks::new(alloc, nodes.len())?;
    needed.add(root);
    for (place, node) in nodes.iter().enumerate().rev() {
        if !needed.has(place) {
            continue;
        }
        match *node {
            NormalNode::Either(a, b) | NormalNode::Both(a, b) => {
                needed.add(a);
                needed.add(b);
            }
            NormalNode::Next(a) | NormalNode::Until(_, a) => needed.add(a),
            NormalNode::Top
            | NormalNode::Bottom
            | NormalNode::Literal(..)
            | NormalNode::Release(..) => {}
        }
    }
    Ok(needed)
}

/// Returns the alternatives of the formula at the place `root`, and appends their nodes, as long as there are no more than `limit` nodes.
pub fn alternatives_of(
    alloc: Global,
    nodes: &mut Vec<NormalNode>,
    root: usize,
    limit: usize,
) -> Result<Vec<usize>, AllocError>
    requires ordered { AreNormalNodes nodes.old.items }
    requires root { root < length nodes.old.items }
    ensures { IfOk result (λ list. AddsAllAlternatives nodes.old.items nodes.new.items root list.items) }
{
    let needed = needed_for(alloc, nodes, root)?;
    let mut rows = Vec::new(alloc);
    for place in 0..root + 1 {
        let row = split(alloc, nodes, &rows, place, needed.has(place), limit)?;
        rows.push(row)?;
    }
    Vec::from_slice(alloc, row(&rows, root))
}
