//! Splits a text into words, one at a time.

ghost use Rattle.std.specs.Prelude.{◌≡◌, ◌∷◌, option_map};
ghost use Rattle.std.specs.List.{prefix_len};
ghost use Rattle.pg_list_lemmas.specs.Bytes.{is_digit};
ghost use Rattle.pg_ltl.specs.Words.{arrow_at, bare_at, behind, behind_blanks, is_inner, is_letter, is_quoted, is_space, is_start, lettered};
ghost use Rattle.pg_ltl.specs.Words.{makes_name, operator_of, quoted_at, reserved, sign_at, single, without, word_at};
ghost use Rattle.pg_ltl.specs.Mirrors.Scan.{as_word};

use crate::formula::{Infix, Prefix};
use crate::token::FormulaToken;

/// A word of a text, borrowed from it: a name, or a token that isn't a name.
#[derive(Clone, Copy)]
pub enum Word<'a> {
    Name(&'a [u8]),
    Sign(FormulaToken),
}

/// Whether the byte is white space: tab, line feed, carriage return or space.
fn is_space(byte: u8) -> bool
    ensures { result ≡ is_space byte }
{
    matches!(byte, b'\t' | b'\n' | b'\r' | b' ')
}

fn is_digit(byte: u8) -> bool
    ensures { result ≡ is_digit byte }
{
    byte.is_ascii_digit()
}

fn is_letter(byte: u8) -> bool
    ensures { result ≡ is_letter byte }
{
    byte.is_ascii_alphabetic()
}

/// Whether a bare name may begin with the byte: a letter, `_` or `.`.
fn is_start(byte: u8) -> bool
    ensures { result ≡ is_start byte }
{
    is_letter(byte) || byte == b'_' || byte == b'.'
}

/// Whether a bare name may contain the byte after its first one.
fn is_inner(byte: u8) -> bool
    ensures { result ≡ is_inner byte }
{
    is_start(byte) || is_digit(byte)
}

/// Whether a quoted name may contain the byte.
fn is_quoted(byte: u8) -> bool
    ensures { result ≡ is_quoted byte }
{
    byte >= 32 && byte != 127 && byte != b'"'
}

/// Counts the bytes of white space at the start.
fn blanks(bytes: &[u8]) -> usize
    ensures { result ≡ prefix_len is_space bytes.now }
{
    bytes.iter().take_while(|byte| is_space(**byte)).count()
}

/// Counts the bytes of a bare name at the start.
fn inner(bytes: &[u8]) -> usize
    ensures { result ≡ prefix_len is_inner bytes.now }
{
    bytes.iter().take_while(|byte| is_inner(**byte)).count()
}

/// Counts the bytes of a quoted name at the start.
fn quoted_inner(bytes: &[u8]) -> usize
    ensures { result ≡ prefix_len is_quoted bytes.now }
{
    bytes.iter().take_while(|byte| is_quoted(**byte)).count()
}

/// Returns the rest of the bytes after the white space at their start.
#[tactic(auto, using(pg_list_lemmas::proofs::Runs::run_within), unfolding(crate::specs::Words::behind_blanks))]
pub fn behind_blanks(bytes: &[u8]) -> &[u8]
    ensures { result.now ≡ behind_blanks bytes.now }
{
    let (_, rest) = bytes.split_at(blanks(bytes));
    rest
}

/// Returns the meaning of a bare word that isn't a name.
#[tactic(auto, unfolding(crate::specs::Words::reserved))]
fn reserved(word: &[u8]) -> Option<FormulaToken>
    ensures { result ≡ reserved word.now }
{
    if word == b"true".as_slice() {
        Some(FormulaToken::Constant(true))
    } else if word == b"false".as_slice() {
        Some(FormulaToken::Constant(false))
    } else if word == b"xor".as_slice() {
        Some(FormulaToken::Between(Infix::Exclusive))
    } else if word == b"U".as_slice() {
        Some(FormulaToken::Between(Infix::Until))
    } else if word == b"R".as_slice() {
        Some(FormulaToken::Between(Infix::Release))
    } else if word == b"V".as_slice() {
        Some(FormulaToken::Between(Infix::Release))
    } else if word == b"W".as_slice() {
        Some(FormulaToken::Between(Infix::Weak))
    } else if word == b"M".as_slice() {
        Some(FormulaToken::Between(Infix::Strong))
    } else {
        None
    }
}

/// Returns the bare word at the start, and the rest.
#[tactic(auto, using(pg_list_lemmas::proofs::Runs::run_within), unfolding(crate::specs::Words::bare_at))]
fn bare(bytes: &[u8]) -> (Word<'_>, &[u8])
    ensures { (as_word result.0, result.1.now) ≡ bare_at bytes.now }
{
    let (word, rest) = bytes.split_at(inner(bytes));
    match reserved(word) {
        Some(token) => (Word::Sign(token), rest),
        None => (Word::Name(word), rest),
    }
}

/// Returns the prefix operator that this letter stands for.
#[tactic(auto, unfolding(crate::specs::Words::operator_of))]
fn operator_of(byte: u8) -> Option<Prefix>
    ensures { result ≡ operator_of byte }
{
    match byte {
        b'F' => Some(Prefix::Finally),
        b'G' => Some(Prefix::Globally),
        b'X' => Some(Prefix::Next),
        _ => None,
    }
}

/// Whether an F, G or X followed by these bytes begins a name.
#[tactic(auto, unfolding(crate::specs::Words::makes_name))]
fn makes_name(bytes: &[u8]) -> bool
    ensures { result ≡ makes_name bytes.now }
{
    match bytes {
        [byte, ..] => is_digit(*byte) || *byte == b'_',
        [] => false,
    }
}

/// Returns the word that begins with this letter, `_` or `.`, and the rest. `bytes` is `byte` followed by `rest`.
fn lettered<'a>(byte: u8, rest: &'a [u8], bytes: &'a [u8]) -> (Word<'a>, &'a [u8])
    requires { bytes.now ≡ byte ∷ rest.now }
    ensures { (as_word result.0, result.1.now) ≡ lettered (operator_of byte) byte rest.now }
{
    match operator_of(byte) {
        Some(op) => {
            if makes_name(rest) {
                bare(bytes)
            } else {
                (Word::Sign(FormulaToken::Before(op)), rest)
            }
        }
        None => bare(bytes),
    }
}

/// Returns the quoted name whose opening quote comes just before these bytes, and the rest after its closing quote.
#[tactic(auto, using(pg_list_lemmas::proofs::Runs::run_within), unfolding(crate::specs::Words::quoted_at))]
fn quoted(bytes: &[u8]) -> Option<(Word<'_>, &[u8])>
    ensures { option_map (λ x. (as_word x.0, x.1.now)) result ≡ quoted_at bytes.now }
{
    let len = quoted_inner(bytes);
    if len == 0 {
        return None;
    }
    let (name, rest) = bytes.split_at(len);
    match rest {
        [b'"', after @ ..] => Some((Word::Name(name), after)),
        _ => None,
    }
}

/// Returns the bytes without this byte at their start, if it is there.
#[tactic(auto, unfolding(crate::specs::Words::without))]
fn without(byte: u8, bytes: &[u8]) -> &[u8]
    ensures { result.now ≡ without byte bytes.now }
{
    match bytes {
        [first, rest @ ..] if *first == byte => rest,
        _ => bytes,
    }
}

/// Returns the token and the rest after this byte, or `None` if the bytes don't begin with it.
#[tactic(auto, unfolding(crate::specs::Words::behind))]
fn behind(byte: u8, token: FormulaToken, bytes: &[u8]) -> Option<(FormulaToken, &[u8])>
    ensures { option_map (λ x. (x.0, x.1.now)) result ≡ behind byte token bytes.now }
{
    match bytes {
        [first, rest @ ..] if *first == byte => Some((token, rest)),
        _ => None,
    }
}

/// Returns the token that begins with a `<` just before these bytes, and the rest.
#[tactic(auto, unfolding(crate::specs::Words::arrow_at))]
fn arrow(bytes: &[u8]) -> Option<(FormulaToken, &[u8])>
    ensures { option_map (λ x. (x.0, x.1.now)) result ≡ arrow_at bytes.now }
{
    match bytes {
        [b'>', rest @ ..] => Some((FormulaToken::Before(Prefix::Finally), rest)),
        [b'-' | b'=', rest @ ..] => behind(b'>', FormulaToken::Between(Infix::Equivalent), rest),
        _ => None,
    }
}

/// Returns the token that consists of this byte alone.
#[tactic(auto, unfolding(crate::specs::Words::single))]
fn single(byte: u8) -> Option<FormulaToken>
    ensures { result ≡ single byte }
{
    match byte {
        b'!' | b'~' => Some(FormulaToken::Before(Prefix::Not)),
        b'(' => Some(FormulaToken::LeftParen),
        b')' => Some(FormulaToken::RightParen),
        b'0' => Some(FormulaToken::Constant(false)),
        b'1' => Some(FormulaToken::Constant(true)),
        b';' => Some(FormulaToken::Between(Infix::Also)),
        b'^' => Some(FormulaToken::Between(Infix::Exclusive)),
        _ => None,
    }
}

/// Returns the token that begins with this byte, which isn't a letter and is followed by `rest`, and what follows the token.
#[tactic(auto, unfolding(crate::specs::Words::sign_at))]
fn sign(byte: u8, rest: &[u8]) -> Option<(FormulaToken, &[u8])>
    ensures { option_map (λ x. (x.0, x.1.now)) result ≡ sign_at byte rest.now }
{
    match byte {
        b'&' => Some((FormulaToken::Between(Infix::And), without(b'&', rest))),
        b'|' => Some((FormulaToken::Between(Infix::Or), without(b'|', rest))),
        b'-' | b'=' => behind(b'>', FormulaToken::Between(Infix::Implies), rest),
        b'[' => behind(b']', FormulaToken::Before(Prefix::Globally), rest),
        b'<' => arrow(rest),
        _ => match single(byte) {
            Some(token) => Some((token, rest)),
            None => None,
        },
    }
}

/// Returns the word at the start of the bytes, which must have no white space before it, and the rest after it.
#[tactic(auto, unfolding(crate::specs::Words::word_at))]
pub fn word_at(bytes: &[u8]) -> Option<(Word<'_>, &[u8])>
    ensures { option_map (λ x. (as_word x.0, x.1.now)) result ≡ word_at bytes.now }
{
    match bytes {
        [] => None,
        [byte, rest @ ..] if is_start(*byte) => Some(lettered(*byte, rest, bytes)),
        [b'"', rest @ ..] => quoted(rest),
        [byte, rest @ ..] => match sign(*byte, rest) {
            Some((token, after)) => Some((Word::Sign(token), after)),
            None => None,
        },
    }
}
