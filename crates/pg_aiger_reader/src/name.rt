//! Names of propositions and symbols, as faults show them.

ghost use Rattle.std.specs.Prelude.{◌≡◌, IfOk, IfSome, IsNone};
ghost use Rattle.std.specs.List.{flat_map, list_any};
ghost use Rattle.std.specs.Str.{chars};
ghost use Rattle.pg_aiger_reader.specs.FaultTexts.{is_hidden, escaped, name_text};

use std::alloc::{AllocError, Global};
use std::{fmt, str};

/// A name: any bytes. It is shown as it is if it is UTF-8 without control characters and marks that turn the direction of writing, and
/// otherwise with escapes.
#[derive(Debug, Drop)]
pub struct Name {
    pub bytes: Vec<u8>,
}

impl Name {
    /// Returns a copy of a name.
    pub(crate) fn of(alloc: Global, bytes: &[u8]) -> Result<Name, AllocError>
        ensures { IfOk result (λ name. name.bytes.items ≡ bytes.now) }
    {
        Ok(Name {
            bytes: Vec::from_slice(alloc, bytes)?,
        })
    }
}

/// A byte of a name that can't be shown as it is.
#[derive(Clone, Copy)]
struct Escaped(u8);

impl fmt::Display for Escaped {
    ghost use Rattle.std.specs.Prelude.{Some};
    ghost use Rattle.pg_aiger_reader.specs.FaultTexts.{escaped};

    ghost output = { λ byte. Some (escaped byte.0) };

    fn fmt<W: fmt::Write>(&self, f: &mut fmt::Formatter<W>) -> fmt::Result {
        match self.0 {
            b'\\' => f.write_str("\\\\"),
            b' '..=b'~' => f.write_char(char::from(self.0)),
            byte => write!(f, "\\x{byte:02x}"),
        }
    }
}

/// Whether the character is a control character, or a mark that turns the direction of writing.
fn is_hidden(character: char) -> bool
    ensures { result ≡ is_hidden character }
{
    matches!(
        character,
        '\0'..='\x1f'
            | '\x7f'..='\u{9f}'
            | '\u{200e}'..='\u{200f}'
            | '\u{202a}'..='\u{202e}'
            | '\u{2066}'..='\u{2069}'
    )
}

/// Whether any of the characters is one of these.
fn has_hidden(text: &str) -> bool
    ensures { result ≡ list_any is_hidden (chars text.now) }
{
    text.chars().any(|character| is_hidden(character))
}

/// Returns the name, if it can be shown as it is.
fn plain(bytes: &[u8]) -> Option<&str>
    ensures shown { IfSome result (λ text. (text.now ≡ bytes.now) × (name_text bytes.now ≡ bytes.now)) }
    ensures hidden { IsNone result → name_text bytes.now ≡ flat_map escaped bytes.now }
{
    match str::from_utf8(bytes) {
        Ok(text) => {
            if has_hidden(text) {
                return None;
            }
            Some(text)
        }
        Err(_) => None,
    }
}

impl fmt::Display for Name {
    ghost use Rattle.std.specs.Prelude.{Some};
    ghost use Rattle.pg_aiger_reader.specs.FaultTexts.{name_text};

    ghost output = { λ name. Some (name_text name.bytes.items) };

    fn fmt<W: fmt::Write>(&self, f: &mut fmt::Formatter<W>) -> fmt::Result {
        if let Some(text) = plain(&self.bytes) {
            return f.write_str(text);
        }
        for byte in &self.bytes {
            write!(f, "{}", Escaped(*byte))?;
        }
        Ok(())
    }
}
