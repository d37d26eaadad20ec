//! The text of a verdict.

ghost use Rattle.std.specs.Prelude.{◌≡◌, OnOk};
ghost use Rattle.std.specs.Io.KnownBytes.{Appends};
ghost use Rattle.pg_satisfies_texts.specs.Printing.{bit_text, row_line, row_lines, satisfied_line, violated_line, verdict_text};

use pg_satisfies::SatisfactionVerdict;
use std::io::{self, Write};

/// Returns the digit of a value.
fn bit_text(value: bool) -> &'static [u8]
    ensures { result.now ≡ bit_text value }
{
    if value { b"1" } else { b"0" }
}

/// Writes the line of a step: the value of each input.
fn write_row<W: Write>(writer: &mut W, row: &[bool]) -> io::Result<()>
    ensures { OnOk result (Appends (W.contents writer.old) (W.contents writer.new) (row_line row.now)) }
{
    for value in row {
        writer.write_all(bit_text(*value))?;
    }
    writer.write_all(b"\n")
}

/// Writes the lines of some steps.
fn write_rows<W: Write>(writer: &mut W, rows: &[Vec<bool>]) -> io::Result<()>
    ensures { OnOk result (Appends (W.contents writer.old) (W.contents writer.new) (row_lines rows.now)) }
{
    for row in rows {
        write_row(writer, row)?;
    }
    Ok(())
}

/// Returns the line for a circuit that passes.
fn satisfied_line(environment: bool) -> &'static [u8]
    ensures { result.now ≡ satisfied_line environment }
{
    if environment {
        b"REFUTES\n"
    } else {
        b"ACCEPTED\n"
    }
}

/// Returns the line for a circuit that doesn't pass.
fn violated_line(environment: bool) -> &'static [u8]
    ensures { result.now ≡ violated_line environment }
{
    if environment {
        b"FAILS\n"
    } else {
        b"REJECTED\n"
    }
}

/// Writes the verdict on a circuit and a formula: `ACCEPTED`, or `REJECTED` and a run of the circuit that violates the formula. For a
/// circuit that plays the environment it is `REFUTES`, or `FAILS` and a run that satisfies the formula. A run has a line for each step,
/// with the value of each input in the circuit's order, and a line `loop` before the steps that repeat. Fails only if the writer does.
pub fn write_judged<W: Write>(
    verdict: &SatisfactionVerdict,
    environment: bool,
    writer: &mut W,
) -> io::Result<()>
    ensures { OnOk result (Appends (W.contents writer.old) (W.contents writer.new) (verdict_text environment verdict.now)) }
{
    match verdict {
        SatisfactionVerdict::Satisfied => writer.write_all(satisfied_line(environment)),
        SatisfactionVerdict::Violated(rows, back) => {
            let back = (*back).min(rows.len());
            writer.write_all(violated_line(environment))?;
            write_rows(writer, &rows[..back])?;
            writer.write_all(b"loop\n")?;
            write_rows(writer, &rows[back..])
        }
    }
}
