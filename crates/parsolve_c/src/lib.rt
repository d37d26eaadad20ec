//! The library for C, and for programs that call C: games, solutions and commands in the caller's memory. Its header is
//! `bindings/parsolve.h`, which says what a caller must ensure.
#![tactic(auto)]

mod answering;
mod checking;
mod code;
mod copying;
pub mod laws;
mod solving;

pub use answering::{ParsolveText, parsolve_answer, parsolve_answer_new};
pub use checking::{ParsolveFound, parsolve_check};
pub use solving::parsolve_solve;
