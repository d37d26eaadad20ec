//! Lifting to the end, of the lines of a game or of a part of one. A queue proposes which vertex is lifted next, and nothing is
//! promised of it. A look decides that no vertex can be lifted any more: at all vertices, or only at those that lead to a vertex
//! that rose.
#![tactic(auto)]

mod lent;
mod lifting;
mod part;
mod predecessors;
mod queue;
mod watch;

pub use lent::Lent;
pub use lifting::Lifter;
pub use part::{Part, PartLine};
