//! Strongly connected components of a graph, and orders meant to show that the greatest heights on its cycles are even. The search
//! is safe and ends, but nothing else is promised of what it finds: whoever wants to believe that checks it.
#![tactic(auto)]

mod arranging;
mod chains;
mod components;
mod numbered_lists;
mod numbers;
mod target_rows;

pub use arranging::{Arranged, Placed, arrange};
pub use components::{Components, Edges};
pub use numbered_lists::NumberedLists;
pub use numbers::{NONE, at, between, count, from, has_bit, is_marked, item, power, put};
pub use target_rows::TargetRows;
