//! Why no automaton is proposed.

use std::alloc::{AllocError, AllocFailed};
use thiserror::Error;

/// Why no automaton is proposed.
#[derive(Clone, Copy, Debug, PartialEq, Eq, Error)]
pub enum TranslateFault {
    /// Memory ran out.
    #[error("out of memory")]
    OutOfMemory,
    /// There are more than 16 propositions; or the automaton has more than 65,535 states or more than 16,777,216 states times letters; or
    /// an automaton on the way to it has more than 16,777,216 edges or, for a Buchi automaton, 32-bit words of sets of targets; or the
    /// tableau of a temporal formula asks for more than 64 formulas; or the automata of the temporal formulas have more than 32 priorities
    /// in all, not counting the least of each; or a Zielonka tree has more than 131,072 nodes.
    #[error("automaton of the formula too large")]
    TooManyStates,
    /// The search takes 16,777,216 steps or more with decision diagrams, 134,217,728 with Safra's trees or 4,194,304 with sets of
    /// priorities, or looks at 268,435,456 edges or more to merge states.
    #[error("translating the formula takes too many steps")]
    TooManySteps,
}

impl From<AllocError> for TranslateFault {
    fn from(_e: AllocError) -> TranslateFault {
        TranslateFault::OutOfMemory
    }
}

impl<T: Drop> From<AllocFailed<T>> for TranslateFault {
    fn from(_e: AllocFailed<T>) -> TranslateFault {
        TranslateFault::OutOfMemory
    }
}

/// A result, or why there is none.
pub type Attempt<T> = Result<T, TranslateFault>;
