//! Small circuits for an automaton whose start the controller wins, also where it moves first. Nothing is promised about a proposal except
//! that the search is safe and ends. To be sure of a circuit, look at all its runs.
#![tactic(auto)]

mod circuit;
mod codes;
mod dice;
mod fewest;
mod freedom;
mod game;
mod improve;
mod machine;
mod making;
mod merging;
mod moore;
mod net;
mod numbers;
mod product;
mod proposal;
mod steps;
mod tree;

pub use moore::propose_moore;
pub use net::Conjunction;
pub use proposal::{SmallCircuit, propose};
