//! Notes on an automaton that has an answer, and on the words of a command line.

use crate::headers::read_headers;
use pg_cli_words::{Command, lacks_file};
use pg_hoa::has_header;
use std::alloc::Global;
use std::io::Write;

const UNCONTROLLED: &str =
    "parsolve: note: no header controllable-AP, so every proposition is the environment's";

const PLAYERS: &str =
    "parsolve: note: header spot-state-player isn't read: each edge is a step of both";

const ALL_CONTROLLED: &str =
    "parsolve: note: --outs names every proposition, so the environment sets none";

/// The notes on an automaton that has an answer.
#[derive(Clone, Copy)]
pub struct Notes {
    is_uncontrolled: bool,
    is_all_controlled: bool,
    has_players: bool,
}

/// Whether the controller sets every proposition.
fn controls_all(alloc: Global, text: &[u8]) -> bool {
    match read_headers(alloc, text) {
        Some(read) => !read.controllable.contains(&false),
        None => false,
    }
}

impl Notes {
    /// Returns the notes on the input of a command. `is_by_outs` says whether `--outs` names the outputs in place of the input's own
    /// header. There are no notes if the input isn't an automaton.
    pub fn of(alloc: Global, command: Command, is_by_outs: bool, text: &[u8]) -> Notes {
        let is_automaton = matches!(
            command,
            Command::Game
                | Command::Synth { .. }
                | Command::SynthSmall { .. }
                | Command::SynthCounter { .. }
                | Command::Verify { .. }
        );
        Notes {
            is_uncontrolled: is_automaton
                && matches!(has_header(text, b"controllable-AP"), Ok(false)),
            is_all_controlled: is_automaton && is_by_outs && controls_all(alloc, text),
            has_players: is_automaton && matches!(has_header(text, b"spot-state-player"), Ok(true)),
        }
    }

    /// Prints the notes on the error stream.
    pub fn tell<E: Write>(self, errors: &mut E) {
        if self.is_uncontrolled {
            let _ = writeln!(errors, "{UNCONTROLLED}");
        }
        if self.is_all_controlled {
            let _ = writeln!(errors, "{ALL_CONTROLLED}");
        }
        if self.has_players {
            let _ = writeln!(errors, "{PLAYERS}");
        }
    }
}

/// Returns the files of a command that takes two, as its help names them.
fn files_of(command: Command) -> &'static str {
    match command {
        Command::Verify { .. } => "AUTOMATON and CIRCUIT",
        Command::VerifyFormula { .. } => "FORMULA and CIRCUIT",
        Command::Means => "AUTOMATON and FORMULA",
        Command::Replay => "GAME and SCRIPT",
        _ => "GAME and SOLUTION",
    }
}

/// Prints a note on the error stream if a command line that was refused names one file, and its command takes two.
pub fn note_on_words<E: Write>(alloc: Global, words: &[String], errors: &mut E) {
    if let Ok(Some(command)) = lacks_file(alloc, words) {
        let (name, files) = (command.name(), files_of(command));
        let _ = writeln!(
            errors,
            "parsolve: note: {name} takes two files, {files}; `-` is the one on standard input"
        );
    }
}
