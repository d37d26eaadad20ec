//! The frames.

use crate::list::{Items, Numbers, Pairs};

/// Starts a worker anew.
#[derive(Drop)]
pub struct Setup {
    /// The version of the wire format, 1 or 2.
    pub version: u8,
    /// The number of vertices of the game, 1 to 1,048,576.
    pub vertices: u32,
    /// Each odd priority that occurs (at most 65,535), in falling order, with the number of vertices that have it.
    pub bounds: Pairs,
}

/// One of a worker's vertices: the facts about it that the worker needs.
#[derive(Drop)]
pub struct VertexLine {
    pub vertex: u32,
    /// At most 65,536.
    pub priority: u32,
    /// 0 is Even, 1 is Odd.
    pub owner: u8,
    /// At least one, strictly rising.
    pub successors: Numbers,
}

/// The line of a vertex without its successors.
#[derive(Clone, Copy)]
pub struct LineHead {
    pub vertex: u32,
    /// At most 65,536.
    pub priority: u32,
    /// 0 is Even, 1 is Odd.
    pub owner: u8,
}

/// Vertices for a worker's part, in strictly rising order.
#[derive(Drop)]
pub struct Vertices {
    pub lines: Items<VertexLine>,
}

/// A vertex and its measure; None is top.
#[derive(Drop)]
pub struct Value {
    pub vertex: u32,
    /// The components, as many as the frame's width.
    pub list: Option<Numbers>,
}

/// The measures of some vertices, by strictly rising vertex.
#[derive(Drop)]
pub struct Values {
    /// At most 32,768.
    pub width: u32,
    pub values: Items<Value>,
}

/// A vertex and its measure, given by the components that aren't 0; None is top.
#[derive(Drop)]
pub struct SparseValue {
    pub vertex: u32,
    /// For each component that isn't 0, its place, below the frame's width, and the component. The places rise strictly.
    pub pairs: Option<Pairs>,
}

/// The measures of some vertices, by strictly rising vertex, given by the components that aren't 0.
#[derive(Drop)]
pub struct Sparse {
    /// At most 32,768.
    pub width: u32,
    pub values: Items<SparseValue>,
}

/// Lets a worker lift.
#[derive(Clone, Copy)]
pub struct Go {
    /// The greatest number of lifts.
    pub budget: u32,
}

/// Ends a worker's reply.
#[derive(Clone, Copy)]
pub struct Report {
    /// 0: there is more to lift; 1: quiet; 2: refused.
    pub status: u8,
    /// 0 for status 0 and 1. For status 2, a fault: 1 to 4 for a worker's fault, 11 to 18 for a frame's.
    pub code: u8,
}

/// A message between a coordinator and a worker.
#[derive(Drop)]
pub enum Frame {
    Setup(Setup),
    Vertices(Vertices),
    Values(Values),
    Go(Go),
    Report(Report),
    /// Ends a worker.
    Halt,
    Sparse(Sparse),
}
