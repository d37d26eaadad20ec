//! Links to programs that are started on this host.
#![tactic(auto)]

mod connection;
mod deadline;
mod owner;
mod socket;
mod starting;

pub use owner::is_orphaned;
pub use socket::SocketLink;
pub use starting::Reach;
