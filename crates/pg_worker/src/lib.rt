//! Workers. Each holds a part of a game's vertices and lifts them. Its map is over all vertices, and it joins the values of
//! other parts with it. A session drives a worker by frames.
#![tactic(auto)]

mod adding;
mod fault;
mod joins;
pub mod laws;
mod lifting;
mod lines;
mod reply;
mod served;
mod service;
mod session;
mod session_state;
mod turn;
mod worker;

pub use fault::WorkerFault;
pub use lifting::Lifted;
pub use pg_coord_partition::{Cut, VertexSet, fill_line, fits, lent_row, line_of, push, setup_of};
pub use served::Served;
pub use service::serve;
pub use session::Session;
pub use worker::Worker;
