//! Who wins a parity game. From each vertex one player wins, by a strategy that looks at the vertex alone, and the least progress
//! measure shows which. There is no code here: the laws are proved over the definitions.
#![tactic(auto)]

pub mod laws;
