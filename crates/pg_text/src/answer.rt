//! The answer of a solution for one vertex.

use pg_arena::{Player, Vertex};

/// The winner of a vertex, and the successor that the winner chooses there, if the solution names one.
#[derive(Clone, Copy, Debug, PartialEq, Eq)]
pub struct Answer {
    pub winner: Player,
    pub choice: Option<Vertex>,
}
