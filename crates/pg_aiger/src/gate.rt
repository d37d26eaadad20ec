//! Gates and latches, as the lines of a circuit's text have them.

/// A gate: its own literal, and the two literals whose conjunction it is. In a `Circuit` the greater of these comes
/// first.
#[derive(Clone, Copy, Debug, PartialEq, Eq)]
pub struct Gate {
    /// The gate's own literal.
    pub lhs: u32,
    /// The first literal of the conjunction.
    pub rhs0: u32,
    /// The second literal of the conjunction.
    pub rhs1: u32,
}

/// A latch: its own literal, and the literal whose value it has in the next step.
#[derive(Clone, Copy, Debug, PartialEq, Eq)]
pub struct Latch {
    /// The latch's own literal.
    pub literal: u32,
    /// The literal whose value the latch takes over.
    pub next: u32,
}
