//! Games and solutions as arrays of numbers, as other programs hold them in memory.
#![tactic(auto)]

mod arrays;
mod build;
mod checking;
mod fault;
mod solution;
mod solving;

pub use arrays::Arrays;
pub use build::{examine, game_of};
pub use checking::check;
pub use fault::{ArraysFault, GameFault};
pub use solution::NO_CHOICE;
pub use solving::solve;
