//! The lines of inputs, outputs, latches and gates, and their counterparts in the binary form.

ghost use Rattle.std.specs.Prelude.{◌≡◌, ◌<◌, ◌^◌, ◌≤◌};
ghost use Rattle.pg_aiger_reader.specs.Mirrors.Steps.{Gives};
ghost use Rattle.pg_aiger_reader.specs.Mirrors.Items.{literal_at, input_at, latch_of, latch_at, gate_at, ascii_gate_at, groups_at, binary_gate_at};

use crate::fault::ReaderFault;
use crate::number::line;
use pg_aiger::Gate;

/// The form of a circuit's text.
#[derive(Clone, Copy, Debug, PartialEq, Eq)]
pub(crate) enum AigerFormat {
    Ascii,
    Binary,
}

/// A latch's line: its literal, its next literal, and its initial value.
#[derive(Clone, Copy, Debug)]
pub(crate) struct LatchLine {
    pub literal: u32,
    pub next: u32,
    pub reset: u32,
}

/// Reads a line of a single literal. Returns the literal and the rest of the text.
#[tactic(auto, unfolding(crate::specs::Mirrors::Items::literal_at))]
fn literal<'a>(numbers: &mut Vec<u32>, bytes: &'a [u8]) -> Result<(u32, &'a [u8]), ReaderFault>
    ensures { Gives (λ x. (x.0, x.1.now)) result (literal_at bytes.now) }
{
    let rest = line(1, numbers, bytes)?;
    match numbers.as_slice() {
        [literal] => Ok((*literal, rest)),
        _ => Err(ReaderFault::Syntax(bytes.len())),
    }
}

/// Reads the literal of an input or an output. In the binary form an input's literal isn't written: it is twice `variable`.
#[tactic(auto, unfolding(crate::specs::Mirrors::Items::input_at))]
pub(crate) fn input<'a>(
    form: AigerFormat,
    variable: u32,
    numbers: &mut Vec<u32>,
    bytes: &'a [u8],
) -> Result<(u32, &'a [u8]), ReaderFault>
    requires { variable < 2 ^ 31 }
    ensures { Gives (λ x. (x.0, x.1.now)) result (input_at form variable bytes.now) }
{
    match form {
        AigerFormat::Ascii => literal(numbers, bytes),
        AigerFormat::Binary => Ok((2 * variable, bytes)),
    }
}

/// Returns the latch whose line has these numbers, if there is one.
fn latch_of(form: AigerFormat, variable: u32, numbers: &[u32]) -> Option<LatchLine>
    requires { variable < 2 ^ 31 }
    ensures { result ≡ latch_of form variable numbers.now }
{
    let (literal, next, reset) = match (form, numbers) {
        (AigerFormat::Ascii, [literal, next]) => (*literal, *next, 0),
        (AigerFormat::Ascii, [literal, next, reset]) => (*literal, *next, *reset),
        (AigerFormat::Binary, [next]) => (2 * variable, *next, 0),
        (AigerFormat::Binary, [next, reset]) => (2 * variable, *next, *reset),
        _ => return None,
    };
    Some(LatchLine {
        literal,
        next,
        reset,
    })
}

/// Reads a latch. In the binary form its literal isn't written: it is twice `variable`.
#[tactic(auto, unfolding(crate::specs::Mirrors::Items::latch_at))]
pub(crate) fn latch<'a>(
    form: AigerFormat,
    variable: u32,
    numbers: &mut Vec<u32>,
    bytes: &'a [u8],
) -> Result<(LatchLine, &'a [u8]), ReaderFault>
    requires { variable < 2 ^ 31 }
    ensures { Gives (λ x. (x.0, x.1.now)) result (latch_at form variable bytes.now) }
{
    let rest = line(3, numbers, bytes)?;
    match latch_of(form, variable, numbers) {
        Some(latch) => Ok((latch, rest)),
        None => Err(ReaderFault::Syntax(bytes.len())),
    }
}

#[tactic(auto, unfolding(crate::specs::Mirrors::Items::ascii_gate_at))]
fn ascii_gate<'a>(numbers: &mut Vec<u32>, bytes: &'a [u8]) -> Result<(Gate, &'a [u8]), ReaderFault>
    ensures { Gives (λ x. (x.0, x.1.now)) result (ascii_gate_at bytes.now) }
{
    let rest = line(3, numbers, bytes)?;
    match numbers.as_slice() {
        [lhs, rhs0, rhs1] => Ok((
            Gate {
                lhs: *lhs,
                rhs0: *rhs0,
                rhs1: *rhs1,
            },
            rest,
        )),
        _ => Err(ReaderFault::Syntax(bytes.len())),
    }
}

/// Reads the number that groups of seven bits write, the low group first, in at most `most` groups. A byte of 128 or more says that
/// another group follows.
#[tactic(auto, unfolding(crate::specs::Mirrors::Items::groups_at))]
fn groups(most: u32, bytes: &[u8]) -> Result<(u32, &[u8]), ReaderFault>
    ensures { Gives (λ x. (x.0, x.1.now)) result (groups_at most bytes.now) }
{
    if most == 0 {
        return Err(ReaderFault::Syntax(bytes.len()));
    }
    match bytes {
        [] => Err(ReaderFault::Syntax(0)),
        [byte, rest @ ..] => {
            if *byte < 128 {
                return Ok((u32::from(*byte), rest));
            }
            let (high, after) = groups(most - 1, rest)?;
            let value = u64::from(*byte - 128) + 128 * u64::from(high);
            if value > u64::from(u32::MAX) {
                return Err(ReaderFault::NumberTooLarge(bytes.len()));
            }
            Ok((value as u32, after))
        }
    }
}

/// Reads a gate of the binary form: by how much its first literal is below its own, and its second below its first.
#[tactic(auto, unfolding(crate::specs::Mirrors::Items::binary_gate_at))]
fn binary_gate(variable: u32, bytes: &[u8]) -> Result<(Gate, &[u8]), ReaderFault>
    requires { variable < 2 ^ 31 }
    ensures { Gives (λ x. (x.0, x.1.now)) result (binary_gate_at variable bytes.now) }
{
    let lhs = 2 * variable;
    let (first, after) = groups(5, bytes)?;
    if first == 0 || first > lhs {
        return Err(ReaderFault::Syntax(bytes.len()));
    }
    let rhs0 = lhs - first;
    let (second, rest) = groups(5, after)?;
    if second > rhs0 {
        return Err(ReaderFault::Syntax(after.len()));
    }
    Ok((
        Gate {
            lhs,
            rhs0,
            rhs1: rhs0 - second,
        },
        rest,
    ))
}

/// Reads a gate.
#[tactic(auto, unfolding(crate::specs::Mirrors::Items::gate_at))]
pub(crate) fn gate<'a>(
    form: AigerFormat,
    variable: u32,
    numbers: &mut Vec<u32>,
    bytes: &'a [u8],
) -> Result<(Gate, &'a [u8]), ReaderFault>
    requires { variable < 2 ^ 31 }
    ensures { Gives (λ x. (x.0, x.1.now)) result (gate_at form variable bytes.now) }
{
    match form {
        AigerFormat::Ascii => ascii_gate(numbers, bytes),
        AigerFormat::Binary => binary_gate(variable, bytes),
    }
}
