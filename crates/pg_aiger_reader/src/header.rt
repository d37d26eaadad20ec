//! The first line: the form of a circuit's text, and the counts of its parts.

ghost use Rattle.std.specs.Prelude.{◌≡◌, IfOk, option_map};
ghost use Rattle.pg_aiger_reader.specs.Mirrors.Steps.{GivesAs};
ghost use Rattle.pg_aiger_reader.specs.Mirrors.Headers.{IsSmall, form_at, left_out, fits, misfit, header_of, header_at, header_fault, fault_at};

use crate::fault::{ReaderFault, Section};
use crate::item::AigerFormat;
use crate::number::line;
use std::alloc::Global;

/// The limit on variables, and the limit on outputs.
const MOST: u32 = 16_777_216;

/// The form of a circuit's text, the greatest variable, and the counts of its parts.
#[derive(Clone, Copy, Debug)]
pub(crate) struct Header {
    pub form: AigerFormat,
    pub greatest: u32,
    pub inputs: u32,
    pub latches: u32,
    pub outputs: u32,
    pub gates: u32,
}

/// Returns the form by its letters at the start, and the rest of the text.
fn form(bytes: &[u8]) -> Option<(AigerFormat, &[u8])>
    ensures { option_map (λ x. (x.0, x.1.now)) result ≡ form_at bytes.now }
{
    match bytes {
        [b'a', b'a', b'g', b' ', rest @ ..] => Some((AigerFormat::Ascii, rest)),
        [b'a', b'i', b'g', b' ', rest @ ..] => Some((AigerFormat::Binary, rest)),
        _ => None,
    }
}

/// Returns the first unsupported section that the circuit has, by the numbers of the header after the first five.
fn left_out(counts: &[u32]) -> Option<Section>
    ensures { result ≡ left_out counts.now }
{
    match counts {
        [bad, ..] if *bad != 0 => Some(Section::BadStates),
        [_, constraints, ..] if *constraints != 0 => Some(Section::Constraints),
        [_, _, justice, ..] if *justice != 0 => Some(Section::Justice),
        [_, _, _, fairness, ..] if *fairness != 0 => Some(Section::Fairness),
        _ => None,
    }
}

/// Whether there are enough variables for inputs, latches and gates; in the binary form, exactly as many.
fn fits(form: AigerFormat, greatest: u32, inputs: u32, latches: u32, gates: u32) -> bool
    ensures { result ≡ fits form greatest inputs latches gates }
{
    let defined = u64::from(inputs) + u64::from(latches) + u64::from(gates);
    match form {
        AigerFormat::Ascii => defined <= u64::from(greatest),
        AigerFormat::Binary => defined == u64::from(greatest),
    }
}

/// Returns the fault of a header whose counts don't fit.
fn misfit(form: AigerFormat) -> ReaderFault
    ensures { result ≡ misfit form }
{
    match form {
        AigerFormat::Ascii => ReaderFault::TooFewVariables,
        AigerFormat::Binary => ReaderFault::OtherVariables,
    }
}

/// Returns the header with the numbers of the first line. A syntax fault has the offset `left`, which counts from the end.
#[tactic(auto, unfolding(crate::specs::Mirrors::Headers::header_of, crate::specs::Mirrors::Headers::header_fault))]
fn header_of(form: AigerFormat, numbers: &[u32], left: usize) -> Result<Header, ReaderFault>
    ensures read { GivesAs (λ x. x) (header_fault form numbers.now) result (header_of form numbers.now) }
    ensures small { IfOk result IsSmall }
{
    match numbers {
        [greatest, inputs, latches, outputs, gates, more @ ..] => {
            if let Some(section) = left_out(more) {
                return Err(ReaderFault::LeftOut(section));
            }
            if *greatest > MOST || *outputs > MOST {
                return Err(ReaderFault::TooLarge);
            }
            if !fits(form, *greatest, *inputs, *latches, *gates) {
                return Err(misfit(form));
            }
            Ok(Header {
                form,
                greatest: *greatest,
                inputs: *inputs,
                latches: *latches,
                outputs: *outputs,
                gates: *gates,
            })
        }
        _ => Err(ReaderFault::Syntax(left)),
    }
}

/// Reads the first line, and returns its header and the rest of the text.
#[tactic(auto, unfolding(crate::specs::Mirrors::Headers::header_at, crate::specs::Mirrors::Headers::fault_at))]
pub(crate) fn read_header(alloc: Global, bytes: &[u8]) -> Result<(Header, &[u8]), ReaderFault>
    ensures read { GivesAs (λ x. (x.0, x.1.now)) (fault_at bytes.now) result (header_at bytes.now) }
    ensures small { IfOk result (λ x. IsSmall x.0) }
{
    match form(bytes) {
        None => Err(ReaderFault::Syntax(bytes.len())),
        Some((form, text)) => {
            let mut numbers = Vec::new(alloc);
            let rest = line(9, &mut numbers, text)?;
            let header = header_of(form, &numbers, text.len())?;
            Ok((header, rest))
        }
    }
}
