//! Systems: circuits, or parts of circuits, and the literals of propositions.

use pg_aiger::{Gate, Latch};

/// Gates and latches of a circuit, or of a part of one, and for each proposition the literal that says whether it holds. The check reads
/// gates in any order; it is fastest if each gate comes after those that it uses.
#[derive(Debug, Drop)]
pub struct CircuitPart {
    pub gates: Vec<Gate>,
    pub latches: Vec<Latch>,
    /// The literal of each proposition. A proposition past the end of the list never holds.
    pub literals: Vec<u32>,
}

/// A value of a latch, which is given by its position in the list of latches.
#[derive(Clone, Copy, Debug, PartialEq, Eq)]
pub struct Bit {
    pub latch: usize,
    pub value: bool,
}
