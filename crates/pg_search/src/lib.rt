//! The search for least maps: ladders, ranks, and claims that show them. Nothing is promised about the result except that the search is
//! safe and ends. Whoever relies on the result has it certified.
#![tactic(auto)]

mod asked;
mod attracting;
mod board;
mod cuts;
mod exact;
mod greatest;
mod justifying;
mod ladder;
mod leveling;
mod one_parity;
mod proposal;
mod reducing;
mod region;
mod search;
mod shunning;
mod ways;

pub use proposal::{propose, propose_measure};
