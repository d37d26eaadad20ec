//! Worlds: a coordinator and workers over one game, under every list of lifts, deliveries, losses, repeats and restarts.
#![tactic(auto)]

mod event;
mod fault;
pub mod laws;
mod map_laws;
mod replica;
mod room;
mod script;
mod script_fault;
mod script_line;
mod world;

pub use event::Event;
pub use fault::WorldFault;
pub use script::{Script, read_script};
pub use script_fault::ScriptFault;
pub use world::World;
