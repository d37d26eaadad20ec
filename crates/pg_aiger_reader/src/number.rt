//! Lines of numbers, and the ends of lines.

ghost use Rattle.std.specs.Prelude.{◌≡◌, ◌<◌, ◌^◌, SomeIff, option_map};
ghost use Rattle.std.specs.List.{prefix_len};
ghost use Rattle.pg_list_lemmas.specs.Bytes.{is_digit, value_of};
ghost use Rattle.pg_aiger_reader.specs.Mirrors.Steps.{Gives};
ghost use Rattle.pg_aiger_reader.specs.Mirrors.Scan.{newline_at, field_at, line_at};

use crate::fault::ReaderFault;

/// Returns the rest of the text after the end of a line, which is a newline or a carriage return and a newline, if the text begins with
/// one.
pub(crate) fn newline(bytes: &[u8]) -> Option<&[u8]>
    ensures { option_map (λ rest. rest.now) result ≡ newline_at bytes.now }
{
    match bytes {
        [b'\n', rest @ ..] => Some(rest),
        [b'\r', b'\n', rest @ ..] => Some(rest),
        _ => None,
    }
}

fn is_digit(byte: u8) -> bool
    ensures { result ≡ is_digit byte }
{
    byte.is_ascii_digit()
}

/// Returns how many digits are at the start.
fn digits(bytes: &[u8]) -> usize
    ensures { result ≡ prefix_len is_digit bytes.now }
{
    bytes.iter().take_while(|byte| is_digit(**byte)).count()
}

/// Returns the number that the digits write, if it is below 2^32.
fn value_of(digits: &[u8]) -> Option<u32>
    ensures { SomeIff result (value_of digits.now < 2 ^ 32) (value_of digits.now) }
{
    let mut value = 0u64;
    for byte in digits {
        value = 10 * value + u64::from(byte.saturating_sub(b'0'));
        if value > u64::from(u32::MAX) {
            return None;
        }
    }
    Some(value as u32)
}

/// Reads the number at the start, which a single space or the end of its line follows. Returns the number, whether its line ends after
/// it, and the rest of the text.
#[tactic(auto, using(pg_list_lemmas::proofs::Runs::run_within), unfolding(crate::specs::Mirrors::Scan::field_at))]
pub(crate) fn field(bytes: &[u8]) -> Result<(u32, bool, &[u8]), ReaderFault>
    ensures { Gives (λ x. (x.0, x.1, x.2.now)) result (field_at bytes.now) }
{
    let (digits, rest) = bytes.split_at(digits(bytes));
    if digits.is_empty() {
        return Err(ReaderFault::Syntax(bytes.len()));
    }
    match value_of(digits) {
        None => Err(ReaderFault::NumberTooLarge(bytes.len())),
        Some(number) => match rest {
            [b' ', after @ ..] => Ok((number, false, after)),
            _ => match newline(rest) {
                Some(after) => Ok((number, true, after)),
                None => Err(ReaderFault::Syntax(rest.len())),
            },
        },
    }
}

/// Reads a line of at least one number and at most `most` into `numbers`, and drops what the list held before. Returns the rest of the
/// text.
pub(crate) fn line<'a>(
    most: u32,
    numbers: &mut Vec<u32>,
    bytes: &'a [u8],
) -> Result<&'a [u8], ReaderFault>
    ensures { Gives (λ rest. (numbers.new.items, rest.now)) result (line_at most bytes.now) }
{
    numbers.clear();
    let mut rest = bytes;
    for _ in 0..most {
        let (number, last, after) = field(rest)?;
        numbers.push(number)?;
        rest = after;
        if last {
            return Ok(rest);
        }
    }
    Err(ReaderFault::Syntax(rest.len()))
}
