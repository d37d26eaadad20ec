//! Reading circuits.

ghost use Rattle.std.specs.Prelude.{◌≡◌, IfOk, IfErr, ◌≢◌, Some, length, slice_get, option_map};
ghost use Rattle.pg_aiger_reader.specs.Mirrors.Steps.{GivesAs};
ghost use Rattle.pg_aiger_reader.specs.Mirrors.Reading.{behind_line, behind_verdict, latches_at, parts_in, reset_fault, text_at, text_fault};
ghost use Rattle.pg_aiger_reader.specs.Views.{circuit_in, symbols_in};
ghost use Rattle.pg_aiger_reader.specs.Texts.{IsRead};
ghost use Rattle.pg_aiger_reader.specs.Faults.{Refuses};

use crate::fault::ReaderFault;
use crate::header::read_header;
use crate::item::LatchLine;
use crate::number::newline;
use crate::sections::read_sections;
use crate::symbol::{Symbol, symbols};
use pg_aiger::{Gate, Latch};
use std::alloc::Global;

/// The contents of a circuit's text.
#[derive(Debug, Drop)]
pub struct Parts<'a> {
    /// The greatest variable.
    pub greatest: u32,
    /// The literals of the inputs.
    pub inputs: Vec<u32>,
    /// The latches, all of which are 0 at first.
    pub latches: Vec<Latch>,
    /// The literals of the outputs.
    pub outputs: Vec<u32>,
    pub gates: Vec<Gate>,
    /// The names that the text gives to inputs, latches and outputs.
    pub symbols: Vec<Symbol<'a>>,
}

/// Returns the text after this line, if the text begins with it.
#[tactic(auto, unfolding(crate::specs::Mirrors::Reading::behind_line))]
fn behind_line<'a>(line: &[u8], bytes: &'a [u8]) -> Option<&'a [u8]>
    ensures { option_map (λ rest. rest.now) result ≡ behind_line line.now bytes.now }
{
    match bytes.strip_prefix(line) {
        Some(rest) => newline(rest),
        None => None,
    }
}

/// Returns the text after a first line `REALIZABLE` or `UNREALIZABLE`, or the whole text if it has no such line.
fn behind_verdict(bytes: &[u8]) -> &[u8]
    ensures { result.now ≡ behind_verdict bytes.now }
{
    match behind_line(b"REALIZABLE", bytes) {
        Some(body) => body,
        None => match behind_line(b"UNREALIZABLE", bytes) {
            Some(body) => body,
            None => bytes,
        },
    }
}

/// Returns the latches of these lines. It fails with `Reset` at the first that isn't 0 at first.
fn latches_of(alloc: Global, lines: &[LatchLine]) -> Result<Vec<Latch>, ReaderFault>
    ensures { GivesAs (λ x. x.items) (reset_fault 0 lines.now) result (latches_at lines.now) }
{
    let mut latches = Vec::new(alloc);
    for position in 0..lines.len() {
        let line = lines[position];
        if line.reset != 0 {
            return Err(ReaderFault::Reset(position));
        }
        latches.push(Latch {
            literal: line.literal,
            next: line.next,
        })?;
    }
    Ok(latches)
}

/// Reads a text; offsets of faults count from the end.
#[tactic(auto, unfolding(crate::specs::Mirrors::Reading::text_at, crate::specs::Mirrors::Reading::text_fault))]
fn read<'a>(alloc: Global, bytes: &'a [u8]) -> Result<Parts<'a>, ReaderFault>
    ensures { GivesAs parts_in (text_fault bytes.now) result (text_at bytes.now) }
{
    let (header, rest) = read_header(alloc, behind_verdict(bytes))?;
    let (sections, rest) = read_sections(alloc, &header, rest)?;
    let latches = latches_of(alloc, &sections.latches)?;
    let symbols = symbols(alloc, &header, rest)?;
    Ok(Parts {
        greatest: header.greatest,
        inputs: sections.inputs,
        latches,
        outputs: sections.outputs,
        gates: sections.gates,
        symbols,
    })
}

/// Reads a circuit in the AIGER format, in ASCII (`aag`) or binary (`aig`), of 2007 or version 1.9. It skips a first line `REALIZABLE` or
/// `UNREALIZABLE`. The numbers of a line are separated by single spaces, and each line ends with a newline, or with a carriage return and
/// a newline. Symbols may follow, and then empty lines, or the letter `c` and any bytes. There are at most 16,777,216 variables, and at
/// most 16,777,216 outputs.
///
/// It fails with `LeftOut`, `TooLarge`, `TooFewVariables` or `OtherVariables` because of the header, with `Reset` at the first latch that
/// doesn't start at 0, with `Syntax` or `NumberTooLarge` at any other text that it can't read, and with `OutOfMemory` if memory runs out.
///
/// It doesn't check that each used variable is defined, only once and not through itself; the code that makes a circuit from the parts
/// does.
pub fn read_circuit(alloc: Global, bytes: &[u8]) -> Result<Parts<'_>, ReaderFault>
    // The text spells what is read.
    ensures found { IfOk result (λ parts. IsRead bytes.now (circuit_in parts) (symbols_in parts)) }
    // Unless memory ran out, a refused text spells nothing, and a named fault is returned if and only if the text has it.
    ensures refused { IfErr result (Refuses bytes.now) }
{
    match read(alloc, bytes) {
        Ok(parts) => Ok(parts),
        Err(fault) => Err(fault.at(bytes.len())),
    }
}
