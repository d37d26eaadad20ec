//! The contents of a text in HOA v1: its headers, and the edges of each state.
#![tactic(auto)]

mod body;
mod fault;
mod formula;
mod header;
mod naming;
mod preamble;
mod shape;
mod syntax;
mod token;

pub use body::{ReadEdge, ReadState};
pub use fault::{LeftOutName, PartFault, PartRefusal};
pub use formula::Op;
pub use naming::{has_header, with_controls};
pub use syntax::{Syntax, read_syntax};
