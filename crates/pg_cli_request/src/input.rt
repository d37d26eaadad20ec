//! The input of a command.

ghost use Rattle.std.specs.Prelude.{◌≡◌, ◌≤◌, length, map, nat_eq, codes, IfOk, IfErr};
ghost use Rattle.pg_cli_request.specs.Inputs.{joined_length, IsRead};
ghost use Rattle.pg_cli_request.specs.Refusals.{AreUnread, HasNoInput};
ghost use Rattle.pg_cli_request.specs.Mirrors.Givens.{input_of, IsWithin};

use crate::fault::Fault;
use crate::pair::{PairCommand, pair_of};
use crate::texts::FileTexts;
use pg_cli::{CliFault, Command, MOST_BYTES};
use pg_cli_words::STANDARD_INPUT;

/// The line between two texts in one input.
const SEPARATOR: &[u8] = b"--\n";

/// The input of a command.
#[derive(Drop)]
pub(crate) enum Given {
    /// One text.
    Whole(Vec<u8>),
    /// Two texts, each by itself.
    Apart(PairCommand, Vec<u8>, Vec<u8>),
}

impl Given {
    /// Returns the first text.
    pub fn first(&self) -> &[u8] {
        match self {
            Given::Whole(text) | Given::Apart(_, text, _) => text,
        }
    }
}

/// Reads the texts of two files. Fails with `InputTooLong` if one input with both texts, and a line `--` between them, would have more than
/// `MOST_BYTES` bytes.
fn read_both<'a, T: FileTexts>(
    texts: &T,
    first: &'a str,
    second: &'a str,
) -> Result<(Vec<u8>, Vec<u8>), Fault<'a>>
    ensures first { IfOk result (λ both. T.holds texts.now first.now both.0.items) }
    ensures second { IfOk result (λ both. T.holds texts.now second.now both.1.items) }
    ensures limit { IfOk result (λ both. joined_length both.0.items both.1.items ≤ MOST_BYTES) }
    ensures refused { IfErr result (AreUnread (T.holds texts.now) first.now second.now) }
{
    let first = texts.text(first)?;
    let second = texts.text(second)?;
    let newline = if first.ends_with(b"\n") { 0 } else { 1 };
    if first.len() + newline + SEPARATOR.len() + second.len() > MOST_BYTES {
        return Err(Fault::Cli(CliFault::InputTooLong));
    }
    Ok((first, second))
}

/// Reads the input of a command: the contents of its files, or of standard input if none is named.
pub(crate) fn read<'a, T: FileTexts>(
    texts: &T,
    command: Command,
    files: &[&'a str],
) -> Result<Given, Fault<'a>>
    ensures read { IfOk result (λ given. IsRead (T.holds texts.now) command (map (λ f. f.now) files.now) (input_of given)) }
    ensures limit { IfOk result IsWithin }
    ensures refused { IfErr result (HasNoInput (T.holds texts.now) command (map (λ f. f.now) files.now)) }
{
    match (pair_of(command), files) {
        (Some(pair), [first, second, ..]) => {
            let (first, second) = read_both(texts, first, second)?;
            Ok(Given::Apart(pair, first, second))
        }
        (_, [name, ..]) => Ok(Given::Whole(texts.text(name)?)),
        (_, []) => Ok(Given::Whole(texts.text(STANDARD_INPUT)?)),
    }
}
