//! The tokens of a text, one at a time.

ghost use Rattle.std.specs.Prelude.{◌≡◌, ◌<◌, ◌^◌, ◌≤◌, length, SomeIff, IfSome, option_map};
ghost use Rattle.std.specs.List.{prefix_len};
ghost use Rattle.pg_hoa_syntax.specs.Lexemes.{is_space, is_letter, is_inner};
ghost use Rattle.pg_list_lemmas.specs.Bytes.{is_digit, value_of};
ghost use Rattle.pg_hoa_syntax.specs.Mirrors.Steps.{Gives};
ghost use Rattle.pg_hoa_syntax.specs.Mirrors.Scan.{lexeme, gap_from, gap_step, number_at, name_at, character_at, string_len, string_at};
ghost use Rattle.pg_hoa_syntax.specs.Mirrors.Scan.{alias_at, mark_at, sign_at, solid_at, lex, first};

use crate::fault::{LeftOutName, PartFault, PartRefusal};

/// A token, which borrows the text.
#[derive(Clone, Copy)]
pub enum HoaToken<'a> {
    /// Decimal digits.
    Number(u32),
    Identifier(&'a [u8]),
    /// An identifier before a colon.
    Header(&'a [u8]),
    /// The bytes between two quotes, backslashes included.
    String(&'a [u8]),
    /// The name after `@`.
    Alias(&'a [u8]),
    Body,
    End,
    Abort,
    LeftBracket,
    RightBracket,
    LeftBrace,
    RightBrace,
    LeftParen,
    RightParen,
    Bang,
    Ampersand,
    Bar,
}

/// Whether the byte is white space: tab, line feed, carriage return or space.
fn is_space(byte: u8) -> bool
    ensures { result ≡ is_space byte }
{
    matches!(byte, b'\t' | b'\n' | b'\r' | b' ')
}

fn is_digit(byte: u8) -> bool
    ensures { result ≡ is_digit byte }
{
    byte.is_ascii_digit()
}

fn is_letter(byte: u8) -> bool
    ensures { result ≡ is_letter byte }
{
    byte.is_ascii_alphabetic()
}

/// Whether a name may have the byte after its first one.
fn is_inner(byte: u8) -> bool
    ensures { result ≡ is_inner byte }
{
    is_letter(byte) || is_digit(byte) || byte == b'_' || byte == b'-'
}

/// Returns the number of digits at the start.
fn digits(bytes: &[u8]) -> usize
    ensures { result ≡ prefix_len is_digit bytes.now }
{
    bytes.iter().take_while(|byte| is_digit(**byte)).count()
}

/// Returns the number of bytes at the start that a name may have after its first one.
fn inner(bytes: &[u8]) -> usize
    ensures { result ≡ prefix_len is_inner bytes.now }
{
    bytes.iter().take_while(|byte| is_inner(**byte)).count()
}

/// Returns the number that the digits write, if it is below 2^32.
fn value_of(digits: &[u8]) -> Option<u32>
    ensures { SomeIff result (value_of digits.now < 2 ^ 32) (value_of digits.now) }
{
    let mut value = 0u64;
    for byte in digits {
        value = 10 * value + u64::from(byte.saturating_sub(b'0'));
        if value > u64::from(u32::MAX) {
            return None;
        }
    }
    Some(value as u32)
}

/// Reads the number at the start, and returns it with the bytes after it.
#[tactic(auto, using(pg_list_lemmas::proofs::Runs::run_within), unfolding(crate::specs::Mirrors::Scan::number_at))]
fn number(bytes: &[u8]) -> Result<(HoaToken<'_>, &[u8]), PartRefusal>
    ensures { Gives (λ x. (lexeme x.0, x.1.now)) result (number_at bytes.now) }
{
    let (digits, rest) = bytes.split_at(digits(bytes));
    match value_of(digits) {
        Some(value) => Ok((HoaToken::Number(value), rest)),
        None => Err(PartRefusal::Wrong(PartFault::TooLarge)),
    }
}

/// Reads the identifier at the start, or the header name with its colon, and returns it with the bytes after it.
#[tactic(auto, using(pg_list_lemmas::proofs::Runs::run_within), unfolding(crate::specs::Mirrors::Scan::name_at))]
fn name(bytes: &[u8]) -> Result<(HoaToken<'_>, &[u8]), PartRefusal>
    ensures { Gives (λ x. (lexeme x.0, x.1.now)) result (name_at bytes.now) }
{
    let (name, rest) = bytes.split_at(inner(bytes));
    match rest {
        [b':', after @ ..] => Ok((HoaToken::Header(name), after)),
        _ => Ok((HoaToken::Identifier(name), rest)),
    }
}

/// Reads the alias whose `@` comes right before `bytes`, with `left` bytes left from the `@` on. Returns the alias and
/// the bytes after it.
#[tactic(auto, using(pg_list_lemmas::proofs::Runs::run_within), unfolding(crate::specs::Mirrors::Scan::alias_at))]
fn alias(bytes: &[u8], left: usize) -> Result<(HoaToken<'_>, &[u8]), PartRefusal>
    ensures { Gives (λ x. (lexeme x.0, x.1.now)) result (alias_at bytes.now) }
{
    let len = inner(bytes);
    if len == 0 {
        return Err(PartRefusal::Wrong(PartFault::Syntax(left)));
    }
    let (name, rest) = bytes.split_at(len);
    Ok((HoaToken::Alias(name), rest))
}

/// Reads the token of one byte that comes right before `rest`, with `left` bytes left from it on. Returns the token and
/// `rest`.
#[tactic(auto, unfolding(crate::specs::Mirrors::Scan::sign_at))]
fn sign(byte: u8, rest: &[u8], left: usize) -> Result<(HoaToken<'_>, &[u8]), PartRefusal>
    ensures { Gives (λ x. (lexeme x.0, x.1.now)) result (sign_at byte rest.now) }
{
    match byte {
        b'[' => Ok((HoaToken::LeftBracket, rest)),
        b']' => Ok((HoaToken::RightBracket, rest)),
        b'{' => Ok((HoaToken::LeftBrace, rest)),
        b'}' => Ok((HoaToken::RightBrace, rest)),
        b'(' => Ok((HoaToken::LeftParen, rest)),
        b')' => Ok((HoaToken::RightParen, rest)),
        b'!' => Ok((HoaToken::Bang, rest)),
        b'&' => Ok((HoaToken::Ampersand, rest)),
        b'|' => Ok((HoaToken::Bar, rest)),
        _ => Err(PartRefusal::Wrong(PartFault::Syntax(left))),
    }
}

/// Takes a byte of white space or the `/*` of a comment at the start, where no comment is open. Returns the number of
/// comments that are open after it and the bytes after it, or None at a token or the end of the text.
#[tactic(auto, unfolding(crate::specs::Mirrors::Scan::gap_step))]
fn outside_comments(bytes: &[u8]) -> Option<(u32, &[u8])>
    ensures { gap_step 0 bytes.now ≡ Some (option_map (λ x. (x.0, x.1.now)) result) }
{
    match bytes {
        [one, after @ ..] if is_space(*one) => Some((0, after)),
        [b'/', b'*', after @ ..] => Some((1, after)),
        _ => None,
    }
}

/// Takes a part of the comments, `deep` of which are open, with `outermost` bytes left from the `/*` of the outermost
/// one on. Returns the number of comments that are open after this part and the bytes after it.
#[tactic(auto, unfolding(crate::specs::Mirrors::Scan::gap_step))]
fn inside_comments(deep: u32, outermost: usize, bytes: &[u8]) -> Result<(u32, &[u8]), PartRefusal>
    requires some_open { 0 < deep }
    requires few { deep ≤ 8192 }
    ensures { Gives (λ x. Some (x.0, x.1.now)) result (gap_step deep bytes.now) }
{
    match bytes {
        [b'/', b'*', after @ ..] => {
            if deep < 8192 {
                Ok((deep + 1, after))
            } else {
                Err(PartRefusal::Wrong(PartFault::TooLarge))
            }
        }
        [b'*', b'/', after @ ..] => Ok((deep - 1, after)),
        [_, after @ ..] if !after.is_empty() => Ok((deep, after)),
        _ => Err(PartRefusal::Wrong(PartFault::Syntax(outermost))),
    }
}

/// Takes one blank or a part of the comments, `deep` of which are open, with `outermost` bytes left from the outermost
/// one on. Returns the number of comments that are open after it and the bytes after it, or None at a token or the end
/// of the text.
fn blank(deep: u32, outermost: usize, bytes: &[u8]) -> Result<Option<(u32, &[u8])>, PartRefusal>
    requires { deep ≤ 8192 }
    ensures { Gives (λ x. option_map (λ y. (y.0, y.1.now)) x) result (gap_step deep bytes.now) }
{
    if deep == 0 {
        Ok(outside_comments(bytes))
    } else {
        Ok(Some(inside_comments(deep, outermost, bytes)?))
    }
}

/// Skips white space and comments, and returns the bytes after them.
fn blanks(bytes: &[u8]) -> Result<&[u8], PartRefusal>
    ensures { Gives (λ x. x.now) result (gap_from 0 bytes.now) }
{
    let mut deep = 0u32;
    let mut outermost = 0usize;
    let mut rest = bytes;
    'bytes: loop {
        if deep == 0 {
            outermost = rest.len();
        }
        match blank(deep, outermost, rest)? {
            None => return Ok(rest),
            Some((more, after)) => {
                deep = more;
                rest = after;
            }
        }
    }
}

/// Reads the mark at the start, which begins with a `-`, and returns it with the bytes after it.
#[tactic(auto, unfolding(crate::specs::Mirrors::Scan::mark_at))]
fn mark(bytes: &[u8]) -> Result<(HoaToken<'_>, &[u8]), PartRefusal>
    ensures { Gives (λ x. (lexeme x.0, x.1.now)) result (mark_at bytes.now) }
{
    if let Some(rest) = bytes.strip_prefix(b"--BODY--") {
        Ok((HoaToken::Body, rest))
    } else if let Some(rest) = bytes.strip_prefix(b"--END--") {
        Ok((HoaToken::End, rest))
    } else if let Some(rest) = bytes.strip_prefix(b"--ABORT--") {
        Ok((HoaToken::Abort, rest))
    } else {
        Err(PartRefusal::Wrong(PartFault::Syntax(bytes.len())))
    }
}

/// Reads the string whose first quote comes right before `bytes`, with `left` bytes left from the quote on. Returns the
/// string and the bytes after it.
#[tactic(auto, unfolding(crate::specs::Mirrors::Scan::string_at))]
fn string(bytes: &[u8], left: usize) -> Result<(HoaToken<'_>, &[u8]), PartRefusal>
    ensures { Gives (λ x. (lexeme x.0, x.1.now)) result (string_at bytes.now) }
{
    match string_len(bytes) {
        Some(len) => Ok((HoaToken::String(&bytes[..len]), &bytes[len + 1..])),
        None => Err(PartRefusal::Wrong(PartFault::Syntax(left))),
    }
}

/// Returns the number of bytes of the first character of a string and the bytes after it, or `Some(None)` at the quote
/// that ends the string, or None if the text ends within the string.
#[tactic(auto, unfolding(crate::specs::Mirrors::Scan::character_at))]
fn character(bytes: &[u8]) -> Option<Option<(usize, &[u8])>>
    ensures { option_map (λ x. option_map (λ y. (y.0, y.1.now)) x) result ≡ character_at bytes.now }
{
    match bytes {
        [b'"', ..] => Some(None),
        [b'\\', _, after @ ..] => Some(Some((2, after))),
        [] | [b'\\'] => None,
        [_, after @ ..] => Some(Some((1, after))),
    }
}

/// Returns the number of bytes before the quote that ends a string, if there is such a quote.
fn string_len(bytes: &[u8]) -> Option<usize>
    ensures value { result ≡ string_len bytes.now }
    ensures within { IfSome result (λ n. n < length bytes.now) }
{
    let mut len = 0usize;
    let mut rest = bytes;
    'bytes: loop {
        match character(rest) {
            None => return None,
            Some(None) => return Some(len),
            Some(Some((taken, after))) => {
                len += taken;
                rest = after;
            }
        }
    }
}

/// Reads the token at the start, where there is no blank, and returns it with the bytes after it.
#[tactic(auto, unfolding(crate::specs::Mirrors::Scan::solid_at))]
fn solid(bytes: &[u8]) -> Result<(HoaToken<'_>, &[u8]), PartRefusal>
    ensures { Gives (λ x. (lexeme x.0, x.1.now)) result (solid_at bytes.now) }
{
    match bytes {
        [] => Err(PartRefusal::Wrong(PartFault::Syntax(0))),
        [one, ..] if is_digit(*one) => number(bytes),
        [one, ..] if is_letter(*one) || *one == b'_' => name(bytes),
        [b'"', rest @ ..] => string(rest, bytes.len()),
        [b'@', rest @ ..] => alias(rest, bytes.len()),
        [b'-', ..] => mark(bytes),
        [one, rest @ ..] => sign(*one, rest, bytes.len()),
    }
}

/// Reads the next token, after blanks, and returns it with the number of bytes left from it on and the bytes after it.
/// There is no token at the end of the text.
pub fn next_token(bytes: &[u8]) -> Result<(Option<HoaToken<'_>>, usize, &[u8]), PartRefusal>
    ensures { Gives (λ x. (option_map lexeme x.0, lex x.2.now)) result (first (lex bytes.now)) }
{
    let bytes = blanks(bytes)?;
    if bytes.is_empty() {
        return Ok((None, 0, bytes));
    }
    let (token, rest) = solid(bytes)?;
    Ok((Some(token), bytes.len(), rest))
}

/// Returns the fault of a token that can't stand where it is, `left` bytes before the end.
pub fn unexpected(token: HoaToken<'_>, left: usize) -> PartFault {
    match token {
        HoaToken::Alias(_) => PartFault::LeftOut(LeftOutName::Alias, left),
        HoaToken::Abort => PartFault::LeftOut(LeftOutName::Abort, left),
        _ => PartFault::Syntax(left),
    }
}
