//! Looks for a header in a text, and adds one.

ghost use Rattle.std.specs.Prelude.{◌≡◌, ◌<◌, ◌++◌, ℕ, List, IfOk, OnOk, option_map};
ghost use Rattle.std.specs.List.{All};
ghost use Rattle.pg_hoa_syntax.specs.Syntax.{Written, IsText};
ghost use Rattle.pg_hoa_syntax.specs.Headers.{has_header, with_controls};
ghost use Rattle.pg_hoa_syntax.specs.Mirrors.Scan.{lex, lexeme};
ghost use Rattle.pg_hoa_syntax.specs.Mirrors.HeaderNames.{decided, named_from, behind_version, control_bytes};

use crate::fault::PartRefusal;
use crate::header::{opening, version};
use crate::token::{HoaToken, next_token};
use std::alloc::{AllocError, Global};

/// Whether a header of this name is written, if the token, or the end of the text, decides that.
fn decided(found: Option<HoaToken<'_>>, name: &[u8]) -> Option<bool>
    ensures { result ≡ decided name.now (option_map lexeme found.entry) }
{
    match found {
        None | Some(HoaToken::Body) => Some(false),
        Some(HoaToken::Header(other)) => { if other == name { Some(true) } else { None } }
        Some(_) => None,
    }
}

/// Whether a header of this name comes before `--BODY--`, or before the end of the text.
fn is_named(bytes: &[u8], name: &[u8]) -> Result<bool, PartRefusal>
    ensures { IfOk result (λ found. named_from name.now (lex bytes.now) ≡ found) }
{
    let mut rest = bytes;
    'tokens: loop {
        let (found, _, after) = next_token(rest)?;
        match decided(found, name) {
            Some(answer) => return Ok(answer),
            None => rest = after,
        }
    }
}

/// Returns the bytes after `HOA: v1`.
fn behind_version(bytes: &[u8]) -> Result<&[u8], PartRefusal>
    ensures { IfOk result (λ rest. (w : Written) → IsText bytes.now w → lex rest.now ≡ behind_version w) }
{
    version(opening(bytes)?)
}

/// Whether the text has a header with this name. Fails if the text doesn't begin with `HOA: v1`, or if a token can't be
/// read before the header, or before `--BODY--` if there is no such header.
pub fn has_header(bytes: &[u8], name: &[u8]) -> Result<bool, PartRefusal>
    ensures { IfOk result (λ found. (w : Written) → IsText bytes.now w → found ≡ has_header name.now w) }
{
    is_named(behind_version(bytes)?, name)
}

/// Appends a space and a number in decimal digits.
fn add_control(text: &mut Vec<u8>, number: u32) -> Result<(), AllocError>
    requires { number < 16 }
    ensures { OnOk result (text.new.items ≡ text.old.items ++ control_bytes number) }
{
    if number < 10 {
        text.extend_from_slice(&[b' ', b'0' + number as u8])
    } else {
        text.extend_from_slice(&[b' ', b'1', b'0' + (number - 10) as u8])
    }
}

/// Returns the text with the header `controllable-AP` before all others, by which the controller sets the propositions
/// with these numbers, which are below 16. Fails if the text doesn't begin with `HOA: v1`, or if memory runs out.
pub fn with_controls(alloc: Global, bytes: &[u8], controls: &[u32]) -> Result<Vec<u8>, PartRefusal>
    requires { All (λ n. n < 16) controls.now }
    ensures { IfOk result (λ text. (w : Written) → IsText bytes.now w → IsText text.items (with_controls controls.now w)) }
{
    let rest = behind_version(bytes)?;
    let mut text = Vec::from_slice(alloc, b"HOA: v1\ncontrollable-AP:")?;
    for number in controls {
        add_control(&mut text, *number)?;
    }
    text.extend_from_slice(b"\n")?;
    text.extend_from_slice(rest)?;
    Ok(text)
}
