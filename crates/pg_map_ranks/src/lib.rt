//! Maps as ranks: the measures of a map are rows of a ladder, and each vertex has the number of its row.
#![tactic(auto)]

mod block;
mod ladder;
pub mod laws;
mod map;
mod row;
mod table;
mod under;

pub use ladder::Ladder;
pub use map::RankMap;
