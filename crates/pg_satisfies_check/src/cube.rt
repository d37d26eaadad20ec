//! Cubes, and what is known of the steps in them.

use crate::system::Bit;

/// What is known of a step: a list of values, of which some may be unknown.
pub type KnownRow = Vec<Option<bool>>;

/// Values of latches, and rows for the steps in which the latches have these values. A row has the value of the next literal of each latch,
/// and then the value of each proposition's literal.
#[derive(Debug, Drop)]
pub struct LatchCube {
    pub bits: Vec<Bit>,
    pub rows: Vec<KnownRow>,
}
