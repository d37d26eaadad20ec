//! Inputs, latches, outputs and gates, one line after another.

ghost use Rattle.std.specs.Prelude.{◌≡◌, ◌^◌, ◌≤◌, ◌+◌};
ghost use Rattle.pg_aiger_reader.specs.Mirrors.Steps.{Gives};
ghost use Rattle.pg_aiger_reader.specs.Mirrors.Headers.{IsSmall};
ghost use Rattle.pg_aiger_reader.specs.Mirrors.Items.{input_at, latch_at, gate_at};
ghost use Rattle.pg_aiger_reader.specs.Mirrors.Sections.{many_at, sections_at, sections_in};

use crate::fault::ReaderFault;
use crate::header::Header;
use crate::item::{AigerFormat, LatchLine, gate, input, latch};
use pg_aiger::Gate;
use std::alloc::Global;

/// The lines after the first one, up to the symbols.
#[derive(Drop)]
pub(crate) struct Sections {
    pub inputs: Vec<u32>,
    pub latches: Vec<LatchLine>,
    pub outputs: Vec<u32>,
    pub gates: Vec<Gate>,
}

/// Reads `count` inputs or outputs. Returns them and the rest of the text.
fn literals(
    alloc: Global,
    form: AigerFormat,
    count: u32,
    bytes: &[u8],
) -> Result<(Vec<u32>, &[u8]), ReaderFault>
    requires { count ≤ 16777216 }
    ensures { Gives (λ x. (x.0.items, x.1.now)) result (many_at (input_at form) count 1 bytes.now) }
{
    let mut numbers = Vec::new(alloc);
    let mut list = Vec::new(alloc);
    let mut rest = bytes;
    for i in 0..count {
        let (literal, after) = input(form, 1 + i, &mut numbers, rest)?;
        list.push(literal)?;
        rest = after;
    }
    Ok((list, rest))
}

/// Reads `count` latches; in the binary form the first one's variable is `first`. Returns them and the rest of the text.
fn latches(
    alloc: Global,
    form: AigerFormat,
    first: u32,
    count: u32,
    bytes: &[u8],
) -> Result<(Vec<LatchLine>, &[u8]), ReaderFault>
    requires { first + count ≤ 2 ^ 31 }
    ensures { Gives (λ x. (x.0.items, x.1.now)) result (many_at (latch_at form) count first bytes.now) }
{
    let mut numbers = Vec::new(alloc);
    let mut list = Vec::new(alloc);
    let mut rest = bytes;
    for i in 0..count {
        let (line, after) = latch(form, first + i, &mut numbers, rest)?;
        list.push(line)?;
        rest = after;
    }
    Ok((list, rest))
}

/// Reads `count` gates; in the binary form the first one's variable is `first`. Returns them and the rest of the text.
fn gates(
    alloc: Global,
    form: AigerFormat,
    first: u32,
    count: u32,
    bytes: &[u8],
) -> Result<(Vec<Gate>, &[u8]), ReaderFault>
    requires { first + count ≤ 2 ^ 31 }
    ensures { Gives (λ x. (x.0.items, x.1.now)) result (many_at (gate_at form) count first bytes.now) }
{
    let mut numbers = Vec::new(alloc);
    let mut list = Vec::new(alloc);
    let mut rest = bytes;
    for i in 0..count {
        let (line, after) = gate(form, first + i, &mut numbers, rest)?;
        list.push(line)?;
        rest = after;
    }
    Ok((list, rest))
}

/// Reads as many inputs, latches, outputs and gates as the header says. Returns them and the rest of the text.
#[tactic(auto, unfolding(crate::specs::Mirrors::Sections::sections_at))]
pub(crate) fn read_sections<'a>(
    alloc: Global,
    header: &Header,
    bytes: &'a [u8],
) -> Result<(Sections, &'a [u8]), ReaderFault>
    requires { IsSmall header.now }
    ensures { Gives (λ x. (sections_in x.0, x.1.now)) result (sections_at header.now bytes.now) }
{
    let (inputs, rest) = literals(alloc, header.form, header.inputs, bytes)?;
    let first = 1 + header.inputs;
    let (latches, rest) = latches(alloc, header.form, first, header.latches, rest)?;
    let (outputs, rest) = literals(alloc, AigerFormat::Ascii, header.outputs, rest)?;
    let first = first + header.latches;
    let (gates, rest) = gates(alloc, header.form, first, header.gates, rest)?;
    Ok((
        Sections {
            inputs,
            latches,
            outputs,
            gates,
        },
        rest,
    ))
}
