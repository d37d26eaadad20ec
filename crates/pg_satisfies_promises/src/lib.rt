//! Splits a formula into promises, each of which can be refuted alone. Such a formula is mostly the negation of what a circuit has to
//! satisfy: the assumptions hold, and some guarantee doesn't. So a promise is a guarantee that doesn't hold, and it is often refuted with
//! few of the assumptions, or with none, on the small part of the circuit that these speak of.
#![tactic(auto)]

mod alternatives;
mod conjuncts;
mod frame;
mod growing;
mod marks;
mod propositions;
mod splitting;

pub use propositions::propositions_of;
pub use splitting::{Promises, promises_of};
