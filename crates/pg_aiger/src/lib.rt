//! Circuits of gates and latches in the AIGER format: the circuit of a machine, its steps, and its text.
#![tactic(auto)]

mod circuit;
mod draft;
mod fault;
mod gate;
pub mod laws;
mod layout;
mod parts;
mod table;

pub use circuit::{Circuit, circuit_of};
pub use fault::AigerFault;
pub use gate::{Gate, Latch};
pub use layout::write_circuit;
