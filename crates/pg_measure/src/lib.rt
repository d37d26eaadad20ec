//! Progress measures: top, or a list with a component for each odd priority of the game, the greatest priority first. They are
//! those of Jurdzinski, "Small Progress Measures for Solving Parity Games", section 3, with the greatest recurring priority deciding.
#![tactic(auto)]

mod bounds;
pub mod laws;
mod measure;
mod ordering;
pub mod row;
mod view;

pub use bounds::Bounds;
pub use measure::Measure;
pub use view::View;
