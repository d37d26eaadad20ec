//! The commands of the program. Each command is a function from a text to an answer, a value whose text is then written. A command that
//! solves games takes a method of solving, which finds maps of games.
#![tactic(auto)]

mod automaton;
mod check;
mod counter;
mod fault;
mod game;
mod input;
pub mod laws;
mod means;
mod measure;
mod memory;
mod output;
mod parts;
mod printing;
mod program;
mod refute;
mod replay;
mod small;
mod solution;
mod solve;
mod solver;
mod synth;
mod verify;
mod verify_formula;
pub mod winners;
mod world_output;

pub use fault::{CliFault, exit_code, write_fault};
pub use input::{MOST_BYTES, read_input};
pub use memory::in_memory;
pub use parts::part_texts;
pub use pg_cli_words::Command;
pub use program::{
    check_texts, means_texts, refute_texts, replay_texts, run_by, verify_formula_texts,
    verify_texts, write_answer_by,
};
pub use solver::{ProposedCircuit, Solver, Untranslated};
