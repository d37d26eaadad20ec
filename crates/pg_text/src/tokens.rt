//! The tokens of PGSolver's format, read one at a time: numbers, words, `;`, `,`, strings and the end.
//!
//! A token is as long as possible. White space, the bytes 9 to 13 and 32, may surround any token; only between two
//! numbers or two words it is necessary.

ghost use Rattle.std.specs.Prelude.{◌≡◌, ◌<◌, ◌≤◌, ◌+◌, ◌-◌, ◌==◌, ◌∷◌, List, ℕ, Ok, true, false, length, drop, option_map, IfOk, IfErr, IfSome, IsNone, IsOkAnd};
ghost use Rattle.std.specs.Result.{result_ok};
ghost use Rattle.std.specs.List.{prefix_len};
ghost use Rattle.pg_text.specs.Lexemes.{Lexeme, lexeme, number, is_space, is_letter, is_plain, Begins, after_space, fault_at, token_fault};
ghost use Rattle.pg_list_lemmas.specs.Bytes.{is_digit, Stops};
ghost use Rattle.pg_text.specs.Mirrors.Scan.{number_at, word_at, quoted_at, solid_at, token_at};
ghost use Rattle.pg_text.specs.Mirrors.Steps.{Reads};
ghost use Rattle.pg_text.specs.Mirrors.Parts.{natural_at};

/// A token, which borrows the text.
#[derive(Clone, Copy, Debug)]
pub enum Token<'a> {
    /// The value of a run of decimal digits; leading zeros are allowed.
    Number(u32),
    /// A run of letters from `a` to `z`.
    Word(&'a [u8]),
    /// The byte `;`.
    Semicolon,
    /// The byte `,`.
    Comma,
    /// The bytes between two quotes: any but a quote.
    Quoted(&'a [u8]),
    /// Nothing but white space is left.
    End,
}

/// Why no token can be read. The number counts the bytes from the first byte of the token at fault to the end of the
/// text, so the token's offset is the length of the text minus this number.
#[derive(Clone, Copy, Debug, PartialEq, Eq)]
pub enum TokenFault {
    /// No token begins with this byte, or it is the first quote of a string that has no second one.
    Syntax(usize),
    /// The digits write a number over 4,294,967,295.
    NumberTooLarge(usize),
}

#[inline(always)]
fn is_space(byte: u8) -> bool
    ensures { result ≡ is_space byte }
{
    (9 <= byte && byte <= 13) || byte == b' '
}

#[inline(always)]
pub(crate) fn is_digit(byte: u8) -> bool
    ensures { result ≡ is_digit byte }
{
    b'0' <= byte && byte <= b'9'
}

fn is_letter(byte: u8) -> bool
    ensures { result ≡ is_letter byte }
{
    b'a' <= byte && byte <= b'z'
}

fn spaces(bytes: &[u8]) -> usize
    ensures { result ≡ prefix_len is_space bytes.now }
{
    bytes.iter().take_while(|byte| is_space(**byte)).count()
}

fn letters(bytes: &[u8]) -> usize
    ensures { result ≡ prefix_len is_letter bytes.now }
{
    bytes.iter().take_while(|byte| is_letter(**byte)).count()
}

fn plain(bytes: &[u8]) -> usize
    ensures { result ≡ prefix_len is_plain bytes.now }
{
    bytes.iter().take_while(|byte| **byte != b'"').count()
}

/// Returns the byte minus `0`, modulo 256: below ten exactly if the byte is a digit.
#[inline(always)]
fn digit(byte: u8) -> u32
    ensures digit { result < 10 → (is_digit byte ≡ true) × (result ≡ byte - 48) }
    ensures other { 10 ≤ result → is_digit byte ≡ false }
{
    u32::from(byte.wrapping_sub(b'0'))
}

/// Reads the number whose digits are at the start.
#[tactic(auto, unfolding(crate::specs::Mirrors::Scan::number_at))]
#[inline(always)]
pub(crate) fn digits(bytes: &[u8]) -> Result<(u32, &[u8]), TokenFault>
    ensures token { option_map (λ x. (number x.0, x.1.now)) (result_ok result) ≡ number_at bytes.now }
    ensures fault { IfErr result (λ e. e ≡ TokenFault.NumberTooLarge (length bytes.now)) }
{
    let mut value = 0;
    let mut rest = bytes;
    'digits: loop {
        match rest {
            [first, after @ ..] if is_digit(*first) => {
                value = 10 * value + u64::from(first.saturating_sub(b'0'));
                if value > u64::from(u32::MAX) {
                    return Err(TokenFault::NumberTooLarge(bytes.len()));
                }
                rest = after;
            }
            _ => return Ok((value as u32, rest)),
        }
    }
}

/// Reads the number at the start as a token.
fn number_token(bytes: &[u8]) -> Result<(Token<'_>, &[u8]), TokenFault>
    ensures token { option_map (λ x. (lexeme x.0, x.1.now)) (result_ok result) ≡ number_at bytes.now }
    ensures fault { IfErr result (λ e. e ≡ TokenFault.NumberTooLarge (length bytes.now)) }
{
    let (value, rest) = digits(bytes)?;
    Ok((Token::Number(value), rest))
}

#[tactic(auto, using(pg_list_lemmas::proofs::Runs::run_within), unfolding(crate::specs::Mirrors::Scan::word_at))]
fn word(bytes: &[u8]) -> (Token<'_>, &[u8])
    ensures { Some (lexeme result.0, result.1.now) ≡ word_at bytes.now }
{
    let (word, rest) = bytes.split_at(letters(bytes));
    (Token::Word(word), rest)
}

/// Reads the string whose first quote comes right before `bytes`. None if it has no second quote.
#[tactic(auto, using(pg_list_lemmas::proofs::Runs::run_within), unfolding(crate::specs::Mirrors::Scan::quoted_at))]
fn quoted(bytes: &[u8]) -> Option<(Token<'_>, &[u8])>
    ensures { option_map (λ x. (lexeme x.0, x.1.now)) result ≡ quoted_at bytes.now }
{
    let len = plain(bytes);
    if len < bytes.len() {
        Some((Token::Quoted(&bytes[..len]), &bytes[len + 1..]))
    } else {
        None
    }
}

/// Reads the token at the very start.
#[tactic(auto, unfolding(crate::specs::Mirrors::Scan::solid_at))]
fn solid(bytes: &[u8]) -> Result<(Token<'_>, &[u8]), TokenFault>
    ensures token { option_map (λ x. (lexeme x.0, x.1.now)) (result_ok result) ≡ solid_at bytes.now }
    ensures fault { IfErr result (λ e. e ≡ fault_at bytes.now) }
{
    match bytes {
        [] => Ok((Token::End, bytes)),
        [first, rest @ ..] => {
            if is_digit(*first) {
                number_token(bytes)
            } else if is_letter(*first) {
                Ok(word(bytes))
            } else if *first == b';' {
                Ok((Token::Semicolon, rest))
            } else if *first == b',' {
                Ok((Token::Comma, rest))
            } else if *first == b'"' {
                quoted(rest).ok_or(TokenFault::Syntax(bytes.len()))
            } else {
                Err(TokenFault::Syntax(bytes.len()))
            }
        }
    }
}

/// Returns the bytes after the white space at the start.
#[tactic(auto, using(pg_list_lemmas::proofs::Runs::run_within))]
#[inline(always)]
pub(crate) fn after_space(bytes: &[u8]) -> &[u8]
    ensures { result.now ≡ after_space bytes.now }
{
    match bytes {
        [first, ..] if is_space(*first) => &bytes[spaces(bytes)..],
        _ => bytes,
    }
}

/// Returns 1 if a byte of white space is at the start, and otherwise 0.
#[inline(always)]
fn blank(bytes: &[u8]) -> usize
    ensures within { result ≤ length bytes.now }
    ensures same { after_space (drop result bytes.now) ≡ after_space bytes.now }
{
    match bytes {
        [first, ..] if is_space(*first) => 1,
        _ => 0,
    }
}

/// Returns the number at the start and how many bytes it takes, if it has at most seven digits, at most one byte of
/// white space is before it, and at least eight bytes are after this white space: most numbers that programs print are
/// like this. Otherwise it takes no byte.
#[inline(always)]
pub(crate) fn short_number(bytes: &[u8]) -> (u32, usize)
    ensures within { result.1 ≤ length bytes.now }
    ensures number { 0 < result.1 → natural_at bytes.now ≡ Ok (result.0, drop result.1 bytes.now) }
{
    let blank = blank(bytes);
    let front = &bytes[blank..];
    if front.len() < 8 {
        return (0, 0);
    }
    let mut value = digit(front[0]);
    if value > 9 {
        return (0, 0);
    }
    for i in 1..8 {
        let next = digit(front[i]);
        if next > 9 {
            return (value, blank + i);
        }
        value = 10 * value + next;
    }
    (0, 0)
}

/// Returns the bytes after this byte, if it is the first one.
#[inline(always)]
pub(crate) fn after_first(byte: u8, bytes: &[u8]) -> Option<&[u8]>
    ensures { IfSome result (λ rest. bytes.now ≡ byte ∷ rest.now) }
{
    match bytes {
        [first, rest @ ..] if *first == byte => Some(rest),
        _ => None,
    }
}

/// Returns the bytes after this byte, if it is the first one after white space.
#[inline(always)]
pub(crate) fn after_byte(byte: u8, bytes: &[u8]) -> Option<&[u8]>
    ensures some { IfSome result (λ rest. after_space bytes.now ≡ byte ∷ rest.now) }
    ensures none { IsNone result → Stops (λ b. b == byte) (after_space bytes.now) }
{
    match after_space(bytes) {
        [first, rest @ ..] if *first == byte => Some(rest),
        _ => None,
    }
}

/// Reads the next token, after white space, and returns it with the bytes after it: `next_token` for the readers of
/// this crate.
#[tactic(auto, unfolding(crate::specs::Mirrors::Scan::token_at, crate::specs::Mirrors::Scan::lexeme_at))]
pub(crate) fn scan(bytes: &[u8]) -> Result<(Token<'_>, &[u8]), TokenFault>
    ensures { Reads (λ x. (lexeme x.0, x.1.now)) result (token_at bytes.now) }
{
    solid(after_space(bytes))
}

/// Reads the next token, after white space, and returns it with the remaining bytes. At the end of the text the token
/// is `End`.
///
/// The fault is `NumberTooLarge` for a number over 4,294,967,295, and `Syntax` for a byte that begins no token and for
/// a string without its second quote.
pub fn next_token(bytes: &[u8]) -> Result<(Token<'_>, &[u8]), TokenFault>
    ensures spelt { IfOk result (λ x. Begins bytes.now (lexeme x.0) x.1.now) }
    // No other token begins there, and where one begins it is read.
    ensures only { (token : Lexeme) (rest : List ℕ) → Begins bytes.now token rest
        → IsOkAnd result (λ x. (lexeme x.0 ≡ token) × (x.1.now ≡ rest)) }
    ensures fault { IfErr result (λ e. e ≡ token_fault bytes.now) }
{
    scan(bytes)
}

/// Returns the number of bytes from the next token to the end of the text, which is the length of the text minus the
/// token's offset.
pub fn left_at(bytes: &[u8]) -> usize
    ensures { result ≡ length (after_space bytes.now) }
{
    after_space(bytes).len()
}
