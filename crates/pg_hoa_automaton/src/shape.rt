//! The six shapes of a parity condition.

/// Which collections of recurring sets satisfy the condition.
#[derive(Clone, Copy, Debug, PartialEq, Eq)]
pub enum Shape {
    /// The greatest set is even.
    MaxEven,
    /// The greatest set is odd, or there is none.
    MaxOdd,
    /// The least set is even, or there is none and the condition is over an even number of sets.
    MinEven,
    /// The least set is odd, or there is none and the condition is over an odd number of sets.
    MinOdd,
    /// Every collection.
    Always,
    /// No collection.
    Never,
}
