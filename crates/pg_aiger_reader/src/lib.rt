//! Circuits in the AIGER format, from any tool: reading texts, and matching inputs and outputs to the propositions of
//! an automaton.
#![tactic(auto)]

mod fault;
mod header;
mod item;
pub mod laws;
mod name;
mod number;
mod reader;
mod sections;
mod symbol;
mod ties;

pub use fault::{ReaderFault, Section, SideFault, TieFault};
pub use name::Name;
pub use pg_aiger::{Gate, Latch};
pub use reader::{Parts, read_circuit};
pub use symbol::{Symbol, SymbolKind};
pub use ties::tie;
