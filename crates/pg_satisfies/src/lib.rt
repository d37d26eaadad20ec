//! Decides whether every run of a circuit satisfies a formula.
#![tactic(auto)]

mod cone;
mod fault;
pub mod laws;
mod refuting;
mod verdict;

pub use fault::SatisfiesFault;
pub use verdict::{SatisfactionVerdict, satisfies};
