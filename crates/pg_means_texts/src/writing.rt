//! The text of a verdict.

ghost use Rattle.std.specs.Prelude.{◌≡◌, ◌==◌, ◌%◌, ◌∷◌, [], map, OnOk, if◌then◌else◌};
ghost use Rattle.std.specs.List.{flat_map};
ghost use Rattle.std.specs.Io.KnownBytes.{Appends};
ghost use Rattle.pg_means_texts.specs.Printing.{holding, spaced, letter_line, letter_lines, taker, verdict_text};

use crate::comparison::Compared;
use pg_means::FormulaVerdict;
use std::io::{self, Write};

/// Writes a blank and then the name, if the letter's lowest bit is set.
fn write_marked<W: Write>(writer: &mut W, name: &[u8], letter: u32) -> io::Result<()>
    ensures { OnOk result (Appends (W.contents writer.old) (W.contents writer.new) (if letter % 2 == 1 then 32 ∷ name.now else [])) }
{
    if letter % 2 == 0 {
        return Ok(());
    }
    writer.write_all(b" ")?;
    writer.write_all(name)
}

/// Writes the names of the propositions that hold at a letter, each after a blank.
fn write_more<W: Write>(writer: &mut W, names: &[Vec<u8>], letter: u32) -> io::Result<()>
    ensures { OnOk result (Appends (W.contents writer.old) (W.contents writer.new)
        (flat_map (λ name. 32 ∷ name) (holding (map (λ v. v.items) names.now) letter))) }
{
    let mut rest = letter;
    for name in names {
        write_marked(writer, name, rest)?;
        rest /= 2;
    }
    Ok(())
}

/// Writes the names of the propositions that hold at a letter, separated by blanks, or `-` if none holds.
fn write_names<W: Write>(writer: &mut W, names: &[Vec<u8>], letter: u32) -> io::Result<()>
    ensures { OnOk result (Appends (W.contents writer.old) (W.contents writer.new)
        (spaced (holding (map (λ v. v.items) names.now) letter))) }
{
    let mut rest = letter;
    for place in 0..names.len() {
        if rest % 2 == 1 {
            writer.write_all(&names[place])?;
            return write_more(writer, &names[place + 1..], rest / 2);
        }
        rest /= 2;
    }
    writer.write_all(b"-")
}

/// Writes the line of a letter.
fn write_letter<W: Write>(writer: &mut W, names: &[Vec<u8>], letter: u32) -> io::Result<()>
    ensures { OnOk result (Appends (W.contents writer.old) (W.contents writer.new) (letter_line (map (λ v. v.items) names.now) letter)) }
{
    write_names(writer, names, letter)?;
    writer.write_all(b"\n")
}

/// Writes the lines of some letters.
fn write_letters<W: Write>(writer: &mut W, names: &[Vec<u8>], letters: &[u32]) -> io::Result<()>
    ensures { OnOk result (Appends (W.contents writer.old) (W.contents writer.new)
        (letter_lines (map (λ v. v.items) names.now) letters.now)) }
{
    for letter in letters {
        write_letter(writer, names, *letter)?;
    }
    Ok(())
}

/// Returns the line that says whether the automaton accepts the word or the formula holds on it.
fn taker(accepted: bool) -> &'static [u8]
    ensures { result.now ≡ taker accepted }
{
    if accepted {
        b"the automaton accepts\n"
    } else {
        b"the formula holds\n"
    }
}

/// Writes the verdict on an automaton and a formula: `SAME`, or `DIFFERS` and a word on which they differ. For a word it writes a line
/// that says which of the two takes it, a line with the names of the propositions that hold for each letter, and a line `loop` before the
/// letters that repeat. Fails only if the writer does.
pub fn write_compared<W: Write>(compared: &Compared, writer: &mut W) -> io::Result<()>
    ensures { OnOk result (Appends (W.contents writer.old) (W.contents writer.new)
        (verdict_text (map (λ v. v.items) compared.now.names.items) compared.now.verdict)) }
{
    match &compared.verdict {
        FormulaVerdict::Same => writer.write_all(b"SAME\n"),
        FormulaVerdict::Differs(accepted, letters, back) => {
            writer.write_all(b"DIFFERS\n")?;
            writer.write_all(taker(*accepted))?;
            write_letters(writer, &compared.names, &letters[..*back])?;
            writer.write_all(b"loop\n")?;
            write_letters(writer, &compared.names, &letters[*back..])
        }
    }
}
