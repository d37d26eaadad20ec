//! Finds who wins each vertex of a game, how, and an order that shows it. The search is safe and ends, but nothing else is promised
//! of what it finds: whoever wants to believe that checks the order.
#![tactic(auto)]

mod arranging;
mod fixpoint;
mod graph;
mod improvement;
mod lists;
mod played;
mod promotion;
mod recursion;
mod solver;
mod succinct;
mod table;
mod winners;

pub use arranging::arrange;
pub use graph::Graph;
pub use pg_search_components::{NONE, Placed};
pub use played::Played;
pub use winners::{Winners, WinningOrder, find_order, find_winners};
