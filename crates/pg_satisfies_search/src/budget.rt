//! Why the search stops, and what it may spend.

use std::alloc::{AllocError, AllocFailed};

/// What there is too much of for the search.
#[derive(Clone, Copy, Debug, PartialEq, Eq)]
pub enum SearchLimit {
    /// The product has more nodes than the search may make.
    Nodes,
    /// The search takes more steps than it may take.
    CubeSteps,
    /// The circuit has more than 1,024 latches.
    Latches,
    /// There are more than 256 signals: inputs on which something depends, and other variables of which the formula speaks.
    Signals,
    /// There are more than 256 formulas for which the tableau may ask.
    Formulas,
}

/// What a search may spend. A step takes about a nanosecond.
#[derive(Clone, Copy, Debug)]
pub struct Limits {
    /// The most nodes of the product.
    pub nodes: u32,
    /// The most steps.
    pub steps: u64,
}

/// Why the search stops without an answer.
#[derive(Clone, Copy)]
pub enum SearchStop {
    OutOfMemory,
    GivenUp(SearchLimit),
}

impl From<AllocError> for SearchStop {
    fn from(_e: AllocError) -> SearchStop {
        SearchStop::OutOfMemory
    }
}

impl<T: Drop> From<AllocFailed<T>> for SearchStop {
    fn from(_e: AllocFailed<T>) -> SearchStop {
        SearchStop::OutOfMemory
    }
}

/// A result, or why there is none.
pub type SearchResult<T> = Result<T, SearchStop>;

impl Limits {
    /// Takes steps from those that are left.
    #[inline(always)]
    pub fn spend(&mut self, steps: usize) -> SearchResult<()> {
        self.steps = self.steps.saturating_sub(steps as u64);
        if self.steps == 0 {
            return Err(SearchStop::GivenUp(SearchLimit::CubeSteps));
        }
        Ok(())
    }
}
