//! Reading automata.
#![tactic(auto)]

mod fault;
pub mod laws;
mod letters;
mod outputs;
mod reader;
mod table;
mod terms;

pub use fault::HoaFault;
pub use outputs::{OutputsFault, with_outputs};
pub use pg_hoa_automaton::{Automaton, Shape};
pub use pg_hoa_syntax::{LeftOutName, has_header};
pub use reader::read_automaton;
