//! Measures as text.

ghost use Rattle.std.specs.Prelude.{◌≡◌, ◌++◌, Some, OnOk, OnSome};
ghost use Rattle.std.specs.List.{flat_map};
ghost use Rattle.std.specs.Io.KnownBytes.{Appends};
ghost use Rattle.pg_measure.specs.Views.{measure_in};
ghost use Rattle.pg_text.specs.Numbers.{comma_number, numbers_text};
ghost use Rattle.pg_cli_command.specs.Measuring.{measure_text, measure_line};

use arrayvec::ArrayVec;
use pg_measure::View;
use pg_text::writing::{ShortLine, add_number, write_number, write_numbers};
use std::io::{self, Write};

/// The most components of a measure whose line is written at once. Lines with more components are written part by part.
const MOST: usize = 28;

/// Appends numbers, each after a comma. Returns None if they don't fit.
fn add_comma_numbers(line: &mut ShortLine, numbers: &[u32]) -> Option<()>
    ensures { OnSome result (line.new.items ≡ line.old.items ++ flat_map comma_number numbers.now) }
{
    for number in numbers {
        line.try_push(b',').ok()?;
        add_number(line, *number)?;
    }
    Some(())
}

/// Appends numbers separated by commas. Returns None if they don't fit.
fn add_numbers(line: &mut ShortLine, numbers: &[u32]) -> Option<()>
    ensures { OnSome result (line.new.items ≡ line.old.items ++ numbers_text numbers.now) }
{
    match numbers {
        [] => Some(()),
        [first, rest @ ..] => {
            add_number(line, *first)?;
            add_comma_numbers(line, rest)
        }
    }
}

/// Appends the line of a vertex whose measure is a list of 1 to `MOST` components. Returns None if there are none or more, or if the line
/// doesn't fit.
#[inline(always)]
fn add_line(line: &mut ShortLine, identifier: u32, components: &[u32]) -> Option<()>
    ensures { OnSome result (line.new.items ≡ line.old.items ++ measure_line identifier (Some components.now)) }
{
    if components.is_empty() || components.len() > MOST {
        return None;
    }
    add_number(line, identifier)?;
    line.try_push(b' ').ok()?;
    add_numbers(line, components)?;
    line.try_extend_from_slice(b";\n").ok()
}

/// Writes a measure: `T` for top, `-` for the list without components, and otherwise the components separated by commas.
fn write_measure<W: Write>(writer: &mut W, measure: View) -> io::Result<()>
    ensures { OnOk result
        (Appends (W.contents writer.old) (W.contents writer.new) (measure_text (measure_in measure.entry))) }
{
    match measure {
        View::Top => writer.write_all(b"T"),
        View::List([]) => writer.write_all(b"-"),
        View::List(components) => write_numbers(components, writer),
    }
}

/// Writes the line of a vertex: its identifier and its measure.
pub(crate) fn write_measure_line<W: Write>(
    writer: &mut W,
    identifier: u32,
    measure: View,
) -> io::Result<()>
    ensures { OnOk result (Appends (W.contents writer.old) (W.contents writer.new)
        (measure_line identifier (measure_in measure.entry))) }
{
    if let View::List(components) = measure {
        let mut line = ArrayVec::new();
        if add_line(&mut line, identifier, components).is_some() {
            return writer.write_all(line.as_slice());
        }
    }
    write_number(identifier, writer)?;
    writer.write_all(b" ")?;
    write_measure(writer, measure)?;
    writer.write_all(b";\n")
}
