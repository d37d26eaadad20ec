//! Circuits of gates and latches in the AIGER format, from any tool: the gates may come in any order, as long as they have no cycle.
#![tactic(auto)]

mod fault;
mod hearing;
pub mod laws;
mod marks;
mod netlist;
mod order;
mod plain;
mod propose;
mod step;

pub use fault::NetlistFault;
pub use netlist::Netlist;
pub use pg_aiger::{Gate, Latch};
