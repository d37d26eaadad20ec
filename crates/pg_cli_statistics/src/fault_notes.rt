//! Notes on a fault, after its line: where it is in a file, and what may help.

use crate::headers::{Limit, limit_of, read_headers};
use crate::hints::{Kind, first_kind, is_written_formula, on_syntax, second_kind};
use crate::kept::{Kept, KeptText};
use pg_aiger_reader::ReaderFault;
use pg_cli_command::{CliFault, Untranslated};
use pg_cli_words::Command;
use pg_hoa::{HoaFault, LeftOutName};
use pg_ltl::FormulaFault;
use pg_means_texts::MeansFault;
use pg_text::{TextFault, read_game};
use pg_verify::VerifyFault;
use pg_world::ScriptFault;
use std::alloc::Global;
use std::io::{self, Write};

const BLANKS: &str =
    "--outs leaves out blanks around a name; the header controllable-AP takes such a proposition by its number";

const WRITTEN_FORMULA: &str =
    "the name looks like a formula; parsolve reads formulas from files or standard input: echo 'G a' | parsolve automaton";

/// A place in a file; lines and columns count from 1, and a column is a character of UTF-8.
#[derive(Clone, Copy)]
struct FilePlace<'a> {
    name: &'a str,
    line: usize,
    column: usize,
}

/// A hint that may help.
#[derive(Clone, Copy)]
enum Hint {
    Said(&'static str),
    /// The command of this name reads two texts, and there is one.
    TwoTexts(&'static str),
    TooLarge(Limit),
}

/// Which of the propositions are named.
#[derive(Clone, Copy)]
enum Named {
    All,
    Letter(u32),
}

/// The notes on a fault.
#[derive(Drop)]
pub struct FaultNotes<'a> {
    place: Option<FilePlace<'a>>,
    hint: Option<Hint>,
    names: Option<(Named, Vec<Vec<u8>>)>,
}

/// Returns the line and the column of an offset, or None if the file has no name or isn't kept that far.
fn place_in(text: KeptText<'_>, offset: usize) -> Option<FilePlace<'_>> {
    let mut place = FilePlace {
        name: text.name?,
        line: 1,
        column: 1,
    };
    for byte in text.bytes.get(..offset)? {
        match *byte {
            b'\n' => {
                place.line = place.line.saturating_add(1);
                place.column = 1;
            }
            0x80..=0xBF => (),
            _ => place.column = place.column.saturating_add(1),
        }
    }
    Some(place)
}

/// Whether the text of a game is at fault, and not the text of its solution. Returns None if that isn't known.
fn is_of_game(alloc: Global, game: KeptText<'_>) -> Option<bool> {
    match read_game(alloc, game.bytes) {
        Err(TextFault::OutOfMemory) => None,
        found if game.is_whole => Some(found.is_err()),
        _ => None,
    }
}

/// Returns the offset that a fault names, and whether it is an offset in the first text. Returns None if the fault names none, or if it
/// isn't known in which text it is.
fn offset_of(
    alloc: Global,
    command: Command,
    first: KeptText<'_>,
    fault: &CliFault,
) -> Option<(bool, usize)> {
    match fault {
        CliFault::Text(TextFault::Syntax(offset) | TextFault::NumberTooLarge(offset)) => {
            let is_first = !matches!(command, Command::Check) || is_of_game(alloc, first)?;
            Some((is_first, *offset))
        }
        CliFault::Script(ScriptFault::Syntax(offset) | ScriptFault::NumberTooLarge(offset)) => {
            Some((false, *offset))
        }
        CliFault::Hoa(
            HoaFault::Syntax(offset)
            | HoaFault::LeftOut(_, offset)
            | HoaFault::UnknownHeader(offset)
            | HoaFault::OutOfRange(offset),
        ) => Some((true, *offset)),
        CliFault::Circuit(ReaderFault::Syntax(offset) | ReaderFault::NumberTooLarge(offset)) => {
            Some((false, *offset))
        }
        CliFault::Formula(FormulaFault::Syntax(offset)) => {
            Some((matches!(first_kind(command), Kind::Formula), *offset))
        }
        _ => None,
    }
}

/// Returns the hint for a fault that says by itself what it is, if there is one.
fn plain_hint(command: Command, fault: &CliFault) -> Option<Hint> {
    let said = match fault {
        CliFault::NoSeparator => return Some(Hint::TwoTexts(command.name())),
        CliFault::Hoa(
            HoaFault::LeftOut(
                LeftOutName::Alias | LeftOutName::StateLabel | LeftOutName::ImplicitLabel,
                _,
            ),
        ) => "tools/hoa rewrites aliases, labels on states and edges without labels",
        CliFault::Synth(_) => "a game has at most 1048576 vertices and 8388608 edges",
        CliFault::Verify(VerifyFault::TooLarge) => {
            "their product has at most 65535 states, and 16777216 states times input letters"
        }
        CliFault::Untranslated(Untranslated::TooManyStates) => {
            "an automaton has at most 65535 states and 16777216 states times letters"
        }
        CliFault::Untranslated(Untranslated::TooManySteps) => {
            "the search reached its limit of steps; try a smaller formula"
        }
        CliFault::Means(MeansFault::TooLarge) => {
            "their product has at most 16777216 edges, and 33554432 sets of formulas times letters"
        }
        CliFault::Circuit(ReaderFault::TooLarge) => {
            "a circuit has at most 16777216 variables and as many outputs"
        }
        CliFault::Circuit(ReaderFault::Reset(_)) => {
            "write_aiger -zinit of Yosys makes each latch start at 0"
        }
        _ => return None,
    };
    Some(Hint::Said(said))
}

/// Whether the token at this offset is the first of a vertex's line.
fn begins_line(game: KeptText<'_>, offset: usize) -> bool {
    match game.bytes.get(..offset) {
        Some(before) => before.trim_ascii().is_empty() || before.trim_ascii().ends_with(b";"),
        None => false,
    }
}

/// Returns the hint for a fault of a text, if there is one.
fn text_hint(
    alloc: Global,
    command: Command,
    text: KeptText<'_>,
    is_first: bool,
    offset: usize,
    fault: &CliFault,
) -> Option<Hint> {
    let kind = if is_first {
        first_kind(command)
    } else {
        second_kind(command)
    };
    match fault {
        CliFault::Text(TextFault::Syntax(_))
        | CliFault::Script(ScriptFault::Syntax(_))
        | CliFault::Hoa(HoaFault::Syntax(_))
        | CliFault::Circuit(ReaderFault::Syntax(_))
        | CliFault::Formula(FormulaFault::Syntax(_)) => {
            Some(Hint::Said(on_syntax(alloc, text.bytes, offset, kind)?))
        }
        CliFault::Text(TextFault::NumberTooLarge(_)) if is_first && begins_line(text, offset) => {
            Some(Hint::Said(
                "tools/pg gives vertices other identifiers where theirs are over 4294967295",
            ))
        }
        _ => None,
    }
}

impl<'a> FaultNotes<'a> {
    fn none() -> FaultNotes<'a> {
        FaultNotes {
            place: None,
            hint: None,
            names: None,
        }
    }

    /// Returns the notes on a fault of the input that was kept.
    pub fn of(alloc: Global, kept: &'a Kept<'a>, fault: &CliFault) -> FaultNotes<'a> {
        let (Some(command), (Some(first), second)) = (kept.command, kept.texts()) else {
            return FaultNotes::none();
        };
        let mut notes = FaultNotes::none();
        notes.hint = plain_hint(command, fault);
        match fault {
            CliFault::Hoa(HoaFault::TooLarge) => notes.hint = Some(Hint::TooLarge(limit_of(
                first.bytes,
            ))),
            CliFault::Hoa(HoaFault::NotDeterministic(_, letter)) => {
                notes.set_names(alloc, first, Named::Letter(*letter));
            }
            _ => (),
        }
        if let Some((is_first, offset)) = offset_of(alloc, command, first, fault) {
            let text = if is_first { Some(first) } else { second };
            if let Some(text) = text {
                notes.place = place_in(text, offset);
                notes.hint = notes
                    .hint
                    .or(text_hint(alloc, command, text, is_first, offset, fault));
            }
        }
        notes
    }

    /// Returns the notes on the name of an output that no proposition has.
    pub fn of_name(alloc: Global, kept: &'a Kept<'a>, name: &str) -> FaultNotes<'a> {
        let mut notes = FaultNotes::none();
        let (Some(first), _) = kept.texts() else {
            return notes;
        };
        notes.set_names(alloc, first, Named::All);
        if let Some((_, names)) = &notes.names {
            if names.iter().any(|known| known.as_slice() != name.as_bytes()
                && known.trim_ascii() == name.as_bytes())
            {
                notes.hint = Some(Hint::Said(BLANKS));
            }
        }
        notes
    }

    /// Returns the notes on the name of a file that can't be opened.
    pub fn of_file(alloc: Global, name: &str) -> FaultNotes<'a> {
        let mut notes = FaultNotes::none();
        if is_written_formula(alloc, name.as_bytes()) {
            notes.hint = Some(Hint::Said(WRITTEN_FORMULA));
        }
        notes
    }

    fn set_names(&mut self, alloc: Global, automaton: KeptText<'_>, named: Named) {
        if let Some(read) = read_headers(alloc, automaton.bytes) {
            self.names = Some((named, read.names));
        }
    }

    /// Prints the notes on the error stream.
    pub fn tell<E: Write>(self, errors: &mut E) {
        let _ = self.write(errors);
    }

    fn write<E: Write>(self, errors: &mut E) -> io::Result<()> {
        if let Some(FilePlace { name, line, column }) = self.place {
            writeln!(
                errors,
                "parsolve: note: in {name}, line {line}, column {column}"
            )?;
        }
        if let Some(hint) = self.hint {
            hint.write(errors)?;
        }
        match &self.names {
            Some((Named::All, names)) => write_names(errors, names),
            Some((Named::Letter(letter), names)) => write_letter(errors, *letter, names),
            None => Ok(()),
        }
    }
}

impl Hint {
    fn write<E: Write>(self, errors: &mut E) -> io::Result<()> {
        match self {
            Hint::Said(text) => writeln!(errors, "parsolve: note: {text}"),
            Hint::TwoTexts(command) => writeln!(
                errors,
                "parsolve: note: {command} reads two texts: name two files, or put a line -- between the texts"
            ),
            Hint::TooLarge(Limit::Header(name, number, most)) => writeln!(
                errors,
                "parsolve: note: {name}: {number}, and the limit is {most}"
            ),
            Hint::TooLarge(Limit::Steps(states, letters)) => writeln!(
                errors,
                "parsolve: note: {states} states times {letters} letters, and the limit is 16777216"
            ),
            Hint::TooLarge(Limit::Other) => writeln!(
                errors,
                "parsolve: note: the limits are 65535 states, 16 propositions, 4096 sets, 16777216 states times letters, \
                 4294967295 for a number, 8192 for nesting"
            ),
        }
    }
}

/// Writes the names, separated by commas, as `--outs` takes them.
fn write_names<E: Write>(errors: &mut E, names: &[Vec<u8>]) -> io::Result<()> {
    if names.is_empty() {
        return writeln!(errors, "parsolve: note: there are no propositions");
    }
    let mut before = "parsolve: note: the propositions are ";
    for name in names {
        errors.write_all(before.as_bytes())?;
        errors.write_all(name.as_slice())?;
        before = ", ";
    }
    writeln!(errors)
}

/// Writes a letter: each proposition, negated if its bit is 0.
fn write_letter<E: Write>(errors: &mut E, letter: u32, names: &[Vec<u8>]) -> io::Result<()> {
    if names.is_empty() {
        return Ok(());
    }
    write!(errors, "parsolve: note: letter {letter} is ")?;
    let mut bits = letter;
    let mut before = "";
    for name in names {
        errors.write_all(before.as_bytes())?;
        errors.write_all(if bits % 2 == 0 { b"!" } else { b"" })?;
        errors.write_all(name.as_slice())?;
        bits /= 2;
        before = " & ";
    }
    writeln!(errors)
}
