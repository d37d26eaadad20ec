//! Whether every run of the circuit that a text spells satisfies the formula that another text spells.
#![tactic(auto)]

mod fault;
mod judging;
mod names;
mod signals;
mod writing;

pub use fault::{NameFault, SatisfyFault};
pub use judging::judge;
pub use pg_satisfies::{SatisfactionVerdict, SatisfiesFault};
pub use writing::write_judged;
