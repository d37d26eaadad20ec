//! Proposes evidence that a deterministic parity automaton and a formula agree on every word, or a word on which they differ. Of a
//! proposal it is promised only that the search is safe and ends: whoever wants to rely on a proposal must check it.
#![tactic(auto)]

mod graph;
mod implied;
mod product;
mod proposal;
mod size;
mod tables;
mod way;

pub use proposal::{Lasso, Proposed, ProposedCertificate, SearchFault, propose};
pub use size::{ProductSize, size_of};
