//! The coordinator. It solves a game over links to workers, which need not be trusted. The workers are in this process,
//! or in programs of their own.
#![tactic(auto)]

mod memory;
mod waiting;

pub use memory::MemoryLink;
pub use pg_coord_links::{Reach, SocketLink, is_orphaned};
pub use pg_coord_partition::{Link, LinkFault};
pub use pg_coord_rounds::{CoordFault, Solved, halt, solve, solve_within};
