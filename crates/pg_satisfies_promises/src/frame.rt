//! Nodes around one operand.

ghost use Rattle.std.specs.Prelude.{◌≡◌, ◌≤◌, length, IfOk, OnOk};
ghost use Rattle.pg_ltl.specs.Mirrors.Nodes.{AreNormalNodes};
ghost use Rattle.pg_satisfies_promises.specs.Mirrors.Growing.{AreWithin};
ghost use Rattle.pg_satisfies_promises.specs.Mirrors.Alternatives.{framed_node, left_reach, AddsFrames, AddsProducts};

use crate::growing::put;
use pg_ltl::NormalNode;
use std::alloc::{AllocError, Global};

/// A node around one operand: what it is, and the place of the other operand, if it has one.
#[derive(Clone, Copy)]
pub enum OperandFrame {
    /// The other operand and this one hold.
    Both(usize),
    /// This operand holds at the next step.
    Next,
    /// This operand holds at some step, and the other one until then.
    Until(usize),
}

impl OperandFrame {
    fn around(self, operand: usize) -> NormalNode
        ensures { result ≡ framed_node self operand }
    {
        match self {
            OperandFrame::Both(left) => NormalNode::Both(left, operand),
            OperandFrame::Next => NormalNode::Next(operand),
            OperandFrame::Until(left) => NormalNode::Until(left, operand),
        }
    }
}

/// Appends the frame around each of the operands, and puts their places into a list.
pub fn frame_each(
    nodes: &mut Vec<NormalNode>,
    frame: OperandFrame,
    operands: &[usize],
    places: &mut Vec<usize>,
) -> Result<(), AllocError>
    requires ordered { AreNormalNodes nodes.old.items }
    requires left { left_reach frame ≤ length nodes.old.items }
    requires operands { AreWithin nodes.old.items operands.now }
    requires places { AreWithin nodes.old.items places.old.items }
    ensures { OnOk result (AddsFrames nodes.old.items nodes.new.items places.old.items places.new.items frame operands.now) }
{
    for operand in operands {
        let place = put(nodes, frame.around(*operand))?;
        places.push(place)?;
    }
    Ok(())
}

/// Appends the conjunctions of each of the first operands and each of the second ones, and returns their places.
pub fn products(
    alloc: Global,
    nodes: &mut Vec<NormalNode>,
    firsts: &[usize],
    seconds: &[usize],
) -> Result<Vec<usize>, AllocError>
    requires ordered { AreNormalNodes nodes.old.items }
    requires firsts { AreWithin nodes.old.items firsts.now }
    requires seconds { AreWithin nodes.old.items seconds.now }
    ensures { IfOk result (λ places. AddsProducts nodes.old.items nodes.new.items places.items firsts.now seconds.now) }
{
    let mut places = Vec::new(alloc);
    for first in firsts {
        frame_each(nodes, OperandFrame::Both(*first), seconds, &mut places)?;
    }
    Ok(places)
}
