//! Why there is no verdict.

use pg_means_search::SearchFault;
use std::alloc::{AllocError, AllocFailed};
use thiserror::Error;

/// Why there is no verdict.
#[derive(Clone, Copy, Debug, PartialEq, Eq, Error)]
pub enum MeansFault {
    /// An allocation failed.
    #[error("out of memory")]
    OutOfMemory,
    /// The automaton over all propositions has more than 16,777,216 edges. Or its product with the formula has more than 16,777,216 edges,
    /// if edges between the same nodes that differ only in their letters count once, or more than 268,435,456 if each counts. Or there are
    /// more than 33,554,432 sets of formulas times letters, or formulas that a set can hold times letters.
    #[error("product of automaton and formula too large")]
    TooLarge,
    /// What was found proves neither verdict. No input is known for which this happens.
    #[error("undecided")]
    Undecided,
}

impl From<AllocError> for MeansFault {
    fn from(_e: AllocError) -> MeansFault {
        MeansFault::OutOfMemory
    }
}

impl<T: Drop> From<AllocFailed<T>> for MeansFault {
    fn from(_e: AllocFailed<T>) -> MeansFault {
        MeansFault::OutOfMemory
    }
}

impl From<SearchFault> for MeansFault {
    fn from(e: SearchFault) -> MeansFault {
        match e {
            SearchFault::OutOfMemory => MeansFault::OutOfMemory,
            SearchFault::TooLarge => MeansFault::TooLarge,
        }
    }
}
