//! Circuits that play the environment: does an automaton refuse each of their runs? It does if the automaton's counterpart, which accepts
//! the other words and exchanges the players' propositions, accepts each of these runs.
#![tactic(auto)]

mod exchanging;
pub mod laws;
mod outcome;

pub use exchanging::counterpart;
pub use outcome::{EnvironmentVerdict, outcome_of};
