//! The coordinator's rounds, which solve a game over links to workers that need not be trusted.
#![tactic(auto)]

mod coordinator_map;
mod fault;
mod joining;
mod link_state;
mod pass;
mod round;
mod sending;
mod set_up;
mod solver;
mod subscribers;
mod task;
mod turn;
mod values;

pub use fault::CoordFault;
pub use sending::halt;
pub use solver::{Solved, solve, solve_within};
