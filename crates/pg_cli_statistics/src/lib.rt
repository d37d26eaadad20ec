//! What the program says on the error stream besides an answer or the line of a fault: the figures that `--stats` asks for, and notes.
//! Nothing is promised about it except that it is safe, and the answer doesn't depend on it.
#![tactic(auto)]

mod fault_notes;
mod figures;
mod formula_hints;
mod headers;
mod hints;
mod kept;
mod notes;

pub use fault_notes::FaultNotes;
pub use figures::{CountedTops, Figures, Stopwatch};
pub use kept::Kept;
pub use notes::{Notes, note_on_words};
