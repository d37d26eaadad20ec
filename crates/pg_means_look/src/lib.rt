//! Checks proposals about a deterministic parity automaton and a formula: certificates, which show that both agree on every word, and
//! lassos, on which they differ.
#![tactic(auto)]

mod automaton;
mod certificate;
mod choice;
mod lasso;
pub mod laws;
mod look;
mod places;
mod pool;
mod values;

pub use automaton::{ParityAutomaton, ParityEdge};
pub use certificate::{Certificate, Level, Node};
pub use choice::Choice;
pub use lasso::is_shown;
pub use look::{Finder, shows_empty};
pub use places::are_below;
pub use pool::{Origin, Pool, Pooled};
pub use values::holds_on;
