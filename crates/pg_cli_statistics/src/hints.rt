//! What a text looks like if it isn't of the kind that a command reads, and what may help.

use crate::formula_hints::{is_inner, on_formula};
use pg_cli_words::Command;
use pg_ltl::read_formula;
use std::alloc::Global;

/// The kind of a text.
#[derive(Clone, Copy)]
pub(crate) enum Kind {
    Game,
    Solution,
    Script,
    Formula,
    Automaton,
    Circuit,
}

/// Beginnings that no text has which a command reads, and what a text with such a beginning is.
const FOREIGN: [(&[u8], &str); 9] = [
    (
        b"\x1f\x8b",
        "the text is compressed by gzip; unpack it first",
    ),
    (
        b"\xfd7zXZ\x00",
        "the text is compressed by xz; unpack it first",
    ),
    (b"PK\x03\x04", "the text is a zip archive; unpack it first"),
    (b"BZh", "the text is compressed by bzip2; unpack it first"),
    (
        b"\x28\xb5\x2f\xfd",
        "the text is compressed by zstd; unpack it first",
    ),
    (
        b"\xef\xbb\xbf",
        "the text begins with a byte order mark; save it without one",
    ),
    (
        b"\xff\xfe",
        "the text is in UTF-16; save it in ASCII or UTF-8",
    ),
    (
        b"\xfe\xff",
        "the text is in UTF-16; save it in ASCII or UTF-8",
    ),
    (b"UNREALIZABLE", "the answer UNREALIZABLE has no circuit"),
];

/// How texts begin, and their kinds; the first match counts.
const BEGINNINGS: [(&[u8], Kind); 13] = [
    (b"HOA:", Kind::Automaton),
    (b"aag ", Kind::Circuit),
    (b"aig ", Kind::Circuit),
    (b"REALIZABLE", Kind::Circuit),
    (b"paritysol", Kind::Solution),
    (b"workers", Kind::Script),
    (b"parity", Kind::Game),
    (b"min-parity", Kind::Game),
    (b"max-parity", Kind::Game),
    (b"start", Kind::Game),
    (b"G ", Kind::Formula),
    (b"G(", Kind::Formula),
    (b"[]", Kind::Formula),
];

/// What tokens in games of other tools begin with, and what rewrites them.
const OF_GAMES: [(&[u8], &str); 5] = [
    (
        b"/*",
        "parsolve doesn't read comments in games; tools/pg rewrites the game without them",
    ),
    (
        b"//",
        "parsolve doesn't read comments in games; tools/pg rewrites the game without them",
    ),
    (
        b"#",
        "parsolve doesn't read comments in games; tools/pg rewrites the game without them",
    ),
    (
        b"min-parity",
        "parsolve doesn't read min-parity; tools/pg rewrites the game with max parity",
    ),
    (
        b"max-parity",
        "parsolve doesn't read max-parity; tools/pg rewrites it as parity",
    ),
];

/// What tokens in automata of other tools begin with, and what rewrites them. No token that parsolve reads begins so.
const OF_AUTOMATA: [(&[u8], &str); 1] = [(
    b".",
    "tools/hoa rewrites version 1.1, and headers with dots in their names",
)];

/// Returns the hint for a text of another kind than the command reads there.
fn another(seen: Kind) -> &'static str {
    match seen {
        Kind::Game => "the text looks like a game; measure, solve, check and replay read games",
        Kind::Solution => "the text looks like a solution; check reads a game and then a solution",
        Kind::Script => "the text looks like a script; replay reads a game and then a script",
        Kind::Automaton =>
            "the text looks like an automaton; game and synth read one, and verify and means read one first",
        Kind::Circuit =>
            "the text looks like a circuit; verify reads an automaton and then a circuit",
        Kind::Formula =>
            "the text looks like a formula; automaton reads one, and means reads an automaton and then a formula",
    }
}

/// Returns the kind of a command's first text.
pub(crate) fn first_kind(command: Command) -> Kind {
    match command {
        Command::Automaton | Command::VerifyFormula { .. } => Kind::Formula,
        Command::Means
        | Command::Game
        | Command::Synth { .. }
        | Command::SynthSmall { .. }
        | Command::SynthCounter { .. }
        | Command::Verify { .. } => Kind::Automaton,
        _ => Kind::Game,
    }
}

/// Returns the kind of the second text of a command that reads two.
pub(crate) fn second_kind(command: Command) -> Kind {
    match command {
        Command::Verify { .. } | Command::VerifyFormula { .. } => Kind::Circuit,
        Command::Means => Kind::Formula,
        Command::Replay => Kind::Script,
        _ => Kind::Solution,
    }
}

/// Returns the entry in the table for the first of its beginnings that the text has.
pub(crate) fn beside<T: Copy>(table: &[(&[u8], T)], text: &[u8]) -> Option<T> {
    for (beginning, found) in table {
        if text.starts_with(beginning) {
            return Some(*found);
        }
    }
    None
}

/// Whether a text begins like a specification in TLSF.
fn is_tlsf(text: &[u8]) -> bool {
    match text.trim_ascii_start().strip_prefix(b"INFO") {
        Some(rest) => rest.trim_ascii_start().starts_with(b"{"),
        None => false,
    }
}

/// Whether a text is a formula that has an operator or brackets.
fn is_formula(alloc: Global, text: &[u8]) -> bool {
    match read_formula(alloc, text) {
        Ok((_names, formula)) => formula.nodes.len() > 1,
        Err(_) => false,
    }
}

/// Whether the name of a file is a formula with an operator, and has a byte that can't be in the name of a proposition.
pub(crate) fn is_written_formula(alloc: Global, name: &[u8]) -> bool {
    name.iter().any(|byte| !is_inner(*byte)) && is_formula(alloc, name)
}

/// Returns the kind that a text looks like, where a text of the kind `wanted` should be. A digit can begin games and solutions, but no
/// automaton.
fn looks_like(alloc: Global, text: &[u8], wanted: Kind) -> Option<Kind> {
    let trimmed = text.trim_ascii_start();
    match (trimmed, wanted) {
        ([b'0'..=b'9', ..], Kind::Automaton) => Some(Kind::Game),
        _ => match beside(&BEGINNINGS, trimmed) {
            None if is_formula(alloc, text) => Some(Kind::Formula),
            found => found,
        },
    }
}

/// Returns the hint for a text that looks like another kind than the one that is wanted.
fn other_than(alloc: Global, text: &[u8], wanted: Kind) -> Option<&'static str> {
    match (looks_like(alloc, text, wanted)?, wanted) {
        // a formula may begin with any word
        (Kind::Game | Kind::Solution | Kind::Script, Kind::Formula)
        | (Kind::Game, Kind::Game)
        | (Kind::Solution, Kind::Solution)
        | (Kind::Script, Kind::Script)
        | (Kind::Formula, Kind::Formula)
        | (Kind::Automaton, Kind::Automaton)
        | (Kind::Circuit, Kind::Circuit) => None,
        (seen, _) => Some(another(seen)),
    }
}

/// Returns the hint for a circuit that ends too early.
fn on_circuit(text: &[u8], offset: usize) -> Option<&'static str> {
    match text.get(offset..)? {
        [] => Some(
            "the text ends inside a circuit; each line ends with a newline, the last one too",
        ),
        _ => None,
    }
}

/// Returns the hint for a text that no command reads.
fn unreadable(text: &[u8]) -> Option<&'static str> {
    if text.trim_ascii().is_empty() {
        return Some("the text is empty");
    }
    if is_tlsf(text) {
        return Some(
            "the text looks like TLSF, which parsolve doesn't read; syfco turns TLSF into a formula",
        );
    }
    beside(&FOREIGN, text)
}

/// Returns the hint for a syntax error at this offset of a text that should be of the kind `wanted`.
pub(crate) fn on_syntax(
    alloc: Global,
    text: &[u8],
    offset: usize,
    wanted: Kind,
) -> Option<&'static str> {
    if let Some(hint) = unreadable(text) {
        return Some(hint);
    }
    if let Some(hint) = other_than(alloc, text, wanted) {
        return Some(hint);
    }
    let rest = text.get(offset..)?;
    match wanted {
        Kind::Game => beside(&OF_GAMES, rest),
        Kind::Automaton => beside(&OF_AUTOMATA, rest),
        Kind::Formula => on_formula(text, offset),
        Kind::Circuit => on_circuit(text, offset),
        _ => None,
    }
}
