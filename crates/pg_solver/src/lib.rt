//! Solves games in one piece. A search proposes maps, and one look at each edge decides whether they are the least
//! progress measures. If they aren't, the games are lifted to the end.
#![tactic(auto)]

mod found;
mod known;
mod lifting;
mod proposed;
mod solver;

pub use found::Found;
pub use pg_map_claims::{Proposal, Proposals};
pub use solver::{Maps, measure, solve};
