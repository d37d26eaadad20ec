//! Claims: certificates that a map of ranks is the least progress measure.
#![tactic(auto)]

mod backing;
mod certifying;
mod claim;
pub mod laws;
mod proposal;

pub use certifying::{certifies, is_never_above};
pub use claim::{Claim, Claims};
pub use pg_check_order::Span;
pub use proposal::{Proposal, Proposals};
