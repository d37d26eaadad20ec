//! The verdict of the checker.

use pg_arena::Vertex;

/// Whether a solution is sound, and if it isn't, the evidence against it.
#[derive(Debug, Drop)]
pub enum Verdict {
    /// The solution is sound.
    Wins,
    /// The solution allows an edge from the first vertex to the second, and they have different winners. It is the
    /// least such edge.
    Leaves(Vertex, Vertex),
    /// There is no such edge, and these vertices form a cycle of edges that the solution allows: each leads to the next
    /// and the last to the first. No vertex repeats, and the greatest priority on the cycle has the parity of the
    /// loser.
    BadCycle(Vec<Vertex>),
}
