//! The two texts of a command.

ghost use Rattle.std.specs.Prelude.{◌≡◌, ℕ, List, ◌⊎◌, IfSome, IfNone, IfOk, IfErr};
ghost use Rattle.pg_cli_command.specs.Parts.{IsParted};
ghost use Rattle.pg_cli_command.specs.Mirrors.Parting.{parting_of};

use crate::fault::CliFault;
use memchr::memmem;
use std::alloc::Global;

/// The bytes where the two texts meet: the newline that ends the first text, and a line of two hyphens.
const SEPARATOR: &[u8] = b"\n--\n";

/// Returns the two texts of an input. The first text ends with the newline before the first line `--`, and the second text begins after
/// that line. Returns None if there is no such line.
fn part(input: &[u8]) -> Option<(&[u8], &[u8])>
    ensures parted { IfSome result (λ texts. IsParted input.now texts.0.now texts.1.now) }
    ensures none { IfNone result ((first second : List ℕ) → ¬ IsParted input.now first second) }
{
    let place = memmem::find(input, SEPARATOR)?;
    Some((&input[..place + 1], &input[place + SEPARATOR.len()..]))
}

/// Separates the two texts of an input. Fails with `NoSeparator` if there is no line `--` between two texts, and with
/// `OutOfMemory`.
pub fn part_texts(alloc: Global, input: &[u8]) -> Result<(Vec<u8>, Vec<u8>), CliFault>
    ensures parted { IfOk result (λ texts. IsParted input.now texts.0.items texts.1.items) }
    ensures refused { IfErr result (λ fault. (fault ≡ CliFault.OutOfMemory)
        ⊎ ((fault ≡ CliFault.NoSeparator) × ((first second : List ℕ) → ¬ IsParted input.now first second))) }
{
    match part(input) {
        None => Err(CliFault::NoSeparator),
        Some((first, second)) => Ok((
            Vec::from_slice(alloc, first)?,
            Vec::from_slice(alloc, second)?,
        )),
    }
}

/// The two texts that a command is given.
#[derive(Drop)]
pub(crate) enum Texts {
    /// Both in one input, with a line `--` between them.
    Joined(Vec<u8>),
    /// Each text by itself.
    Apart(Vec<u8>, Vec<u8>),
}

impl Texts {
    /// Returns both texts, or None if they are in one input that has no line `--`.
    pub(crate) fn both(&self) -> Option<(&[u8], &[u8])>
        ensures parted { IfSome result (λ texts. parting_of self.now texts.0.now texts.1.now) }
        ensures none { IfNone result ((first second : List ℕ) → ¬ parting_of self.now first second) }
    {
        match self {
            Texts::Joined(input) => part(input),
            Texts::Apart(first, second) => Some((first.as_slice(), second.as_slice())),
        }
    }
}
