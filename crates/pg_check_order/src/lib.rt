//! Orders that show who wins the cycles of a graph.
#![tactic(auto)]

pub mod laws;
mod span;

pub use span::{Span, are_nested};
