//! Deterministic automata with a parity condition.
#![tactic(auto)]

mod automaton;
pub mod laws;
mod shape;
mod table;

pub use automaton::Automaton;
pub use shape::Shape;
pub use table::{Stored, Table, numbered};
