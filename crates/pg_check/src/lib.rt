//! Solutions of parity games: which of them are sound, what a sound solution means for endless plays, and three ways to
//! get one: from measures, by a search, and by checking one that is given.
#![tactic(auto)]

mod certificate;
mod checker;
mod choices;
mod cycle;
mod edges;
mod fault;
mod finding;
pub mod laws;
mod nests;
mod order;
mod play;
mod proposal;
mod shown;
mod verdict;

pub use certificate::{certifies, check_with};
pub use checker::check;
pub use choices::strategies;
pub use fault::CheckFault;
pub use finding::find_solution;
pub use play::Play;
pub use verdict::Verdict;
