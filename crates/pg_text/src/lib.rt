//! Texts of games and solutions in PGSolver's format.
#![tactic(auto)]

mod answer;
mod fault;
mod game;
pub mod laws;
mod layout;
mod line;
pub mod reading;
mod solution;
mod solution_layout;
mod solution_line;
mod solution_text;
pub mod tokens;
pub mod writing;

pub use answer::Answer;
pub use fault::TextFault;
pub use game::read_game;
pub use layout::write_game;
pub use solution::Solution;
pub use solution_layout::write_solution;
pub use solution_text::read_solution;
