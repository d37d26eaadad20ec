//! Whether an automaton accepts exactly the words that satisfy a formula.
#![tactic(auto)]

mod completed;
mod fault;
mod simplified;
mod size;
mod verdict;

pub use fault::MeansFault;
pub use size::{ProductSizes, sizes};
pub use verdict::{FormulaVerdict, means};
