//! Common parts of a coordinator and its workers: cuts of a game, the lines and measures in frames, and links that
//! carry frames.
#![tactic(auto)]

mod cut;
mod link;
mod measures;
mod telling;
mod vertex_set;

pub use cut::Cut;
pub use link::{Link, LinkFault};
pub use measures::{fits, lent_row, push};
pub use telling::{fill_line, fits_worker, line_of, setup_of};
pub use vertex_set::VertexSet;
