//! The game of an automaton, in which Even chooses output letters so that every run is accepted, and the laws that
//! relate its plays to endless words.
#![tactic(auto)]

mod controller;
mod fault;
mod game;
pub mod laws;
mod layout;
mod lines;
mod mealy;
mod place;

pub use controller::mealy_of;
pub use fault::SynthFault;
pub use game::{SynthGame, game_of};
pub use layout::{count_controlled, count_input_letters, joined, marks};
pub use mealy::Mealy;
pub use place::{Place, priority_of};
