//! Deterministic parity automata for formulas of linear temporal logic. Nothing is promised about a proposal except that the search is safe
//! and ends. To be sure that an automaton means a formula, look at both.
#![tactic(auto)]

mod automaton;
mod bdd;
mod breakpoints;
mod buchi;
mod components;
mod cycles;
mod fault;
mod leaf;
mod minimising;
mod numbers;
mod parity;
mod pool;
mod product;
mod progress;
mod proposal;
mod reading;
mod rules;
mod safra;
mod skeleton;
mod squeezing;
mod tableau;
mod writing;
mod zielonka;

pub use fault::TranslateFault;
pub use proposal::propose;
