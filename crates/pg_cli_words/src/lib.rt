//! The words of the command line: which commands there are, and what a line asks for.
#![tactic(auto)]

mod command;
mod files;
mod outcome;
mod words;

pub use command::Command;
pub use files::{Parted, STANDARD_INPUT, lacks_file, part_words};
pub use outcome::{Outcome, read_words};
pub use words::{Invocation, Request, parse_request, parse_words};
