//! Maps of rows: the measures of one player's vertices. They are lifted from below, set by sweeps through a winning strategy, and
//! lowered from above. The search is safe and ends, but nothing else is promised of what it finds: whoever wants to believe that
//! has it certified.
#![tactic(auto)]

mod lifting;
mod lowering;
mod row_claim;
mod rows;
mod side;
mod sweeps;

pub use row_claim::RowClaim;
pub use rows::{RowNode, Rows, TOP, ZEROS};
pub use side::{Side, State};
