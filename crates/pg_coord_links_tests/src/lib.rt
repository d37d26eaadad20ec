//! Links that stand in for others in tests.
#![tactic(auto)]

pub mod stand_ins;
