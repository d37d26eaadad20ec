//! The program: its command line, its commands with their methods of solving, and its workers.
#![tactic(auto)]

mod apart;
mod attended;
mod over_links;
mod program;
mod working;

pub use apart::{Programs, run_apart};
pub use pg_cli_command::{
    CliFault, Command, MOST_BYTES, check_texts, exit_code, laws, means_texts, part_texts,
    read_input, replay_texts, verify_formula_texts, winners, write_fault,
};
pub use pg_cli_words::{Invocation, parse_words};
pub use program::{answer, run, run_with, verify_texts, write_answer};
pub use working::work;
