//! Checks proposals about a circuit and a formula of linear temporal logic: certificates, which show that no run of the circuit satisfies
//! the formula, and lassos, on which each run does.
#![tactic(auto)]

mod branch;
mod certificate;
mod check;
mod cube;
mod known;
mod lasso;
pub mod laws;
mod link;
mod places;
mod propagation;
mod rows;
mod steps;
mod system;

pub use certificate::EmptinessCertificate;
pub use check::{Guide, shows_empty};
pub use cube::{KnownRow, LatchCube};
pub use known::value_of;
pub use lasso::shows_violated;
pub use rows::Cutter;
pub use steps::CubeSteps;
pub use system::{Bit, CircuitPart};
