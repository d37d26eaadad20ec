//! Parity games: vertices with priorities, owners and successors, and the dual of a game.
#![tactic(auto)]

mod builder;
mod entry;
mod fault;
mod game;
mod identifiers;
mod limits;
mod lines;
mod link;
mod place;
mod player;
mod sorted_lines;
mod vertex;

pub use builder::GameBuilder;
pub use fault::ArenaFault;
pub use game::{Game, dual};
pub use limits::{MAX_EDGES, MAX_PRIORITY, MAX_VERTICES};
pub use player::Player;
pub use vertex::Vertex;
