//! Handles a command line that was read, up to what is written and the exit status: the texts that are its input, the outputs that it
//! names, the answer, and the line of a fault. Where texts come from, and where an answer goes, is left to the caller.
#![tactic(auto)]

mod answering;
mod fault;
mod input;
mod named;
mod pair;
mod texts;

pub use answering::obey;
pub use fault::{Fault, end, status_of, tell, tell_outcome, write_fault};
pub use pair::PairCommand;
pub use texts::FileTexts;
