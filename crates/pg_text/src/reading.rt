//! Readers for parts of texts: numbers, words, semicolons, clauses, and lists of numbers with commas.
//!
//! Each function reads a part at the start, after white space, and returns it with the remaining bytes. If something
//! else is there, it returns a fault at the first wrong token: `NumberTooLarge` for a number over 4,294,967,295, and
//! otherwise `Syntax`.

ghost use Rattle.std.specs.Prelude.{◌≡◌, ◌-◌, length, option_copied};
ghost use Rattle.pg_text.specs.declared.reading.Refusal.TheVariants.{Memory, Token};
ghost use Rattle.pg_text.specs.Lexemes.{left_of};
ghost use Rattle.pg_text.specs.Mirrors.Steps.{Reads, Gives, unexpected};
ghost use Rattle.pg_text.specs.Mirrors.Parts.{misplaced, natural_at, name_at, string_at, semicolon_at, end_at, further_seen, further_at, numbers_at, clause_at};

use crate::tokens::{
    Token, TokenFault, after_byte, after_space, digits, is_digit, left_at, scan, short_number,
};
use std::alloc::{AllocError, AllocFailed};

/// Why a part of a text is refused.
#[derive(Clone, Copy, Debug, PartialEq, Eq)]
pub enum Refusal {
    /// Memory ran out.
    Memory,
    /// The next token is the wrong one, or there is none.
    Token(TokenFault),
}

impl From<TokenFault> for Refusal {
    ghost from_gives = { λ fault e. e ≡ Token fault };

    fn from(fault: TokenFault) -> Refusal {
        Refusal::Token(fault)
    }
}

impl From<AllocError> for Refusal {
    ghost from_gives = { λ _ e. e ≡ Memory };

    fn from(_e: AllocError) -> Refusal {
        Refusal::Memory
    }
}

impl<T: Drop> From<AllocFailed<T>> for Refusal {
    ghost from_gives = { λ _ e. e ≡ Memory };

    fn from(_e: AllocFailed<T>) -> Refusal {
        Refusal::Memory
    }
}

impl TokenFault {
    /// Returns the offset of the token at fault in a text of this many bytes.
    pub fn offset_in(self, len: usize) -> usize
        ensures { result ≡ len - left_of self }
    {
        match self {
            TokenFault::Syntax(left) | TokenFault::NumberTooLarge(left) => len.saturating_sub(left),
        }
    }
}

/// Returns `Syntax` at the next token, where another one must come.
pub fn unexpected(bytes: &[u8]) -> TokenFault
    ensures { result ≡ unexpected bytes.now }
{
    TokenFault::Syntax(left_at(bytes))
}

/// Returns the fault at the next token, where another one must come: its own fault if no token can be read there.
#[tactic(auto, unfolding(crate::specs::Mirrors::Parts::misplaced))]
#[cold]
#[inline(never)]
pub(crate) fn misplaced(bytes: &[u8]) -> TokenFault
    ensures { result ≡ misplaced bytes.now }
{
    match scan(bytes) {
        Ok(_) => unexpected(bytes),
        Err(fault) => fault,
    }
}

/// Reads the number at the start.
#[inline(always)]
pub fn natural(bytes: &[u8]) -> Result<(u32, &[u8]), TokenFault>
    ensures { Reads (λ x. (x.0, x.1.now)) result (natural_at bytes.now) }
{
    match short_number(bytes) {
        (_, 0) => any_number(bytes),
        (number, taken) => Ok((number, &bytes[taken..])),
    }
}

/// Reads the number at the start, however it is written.
#[inline(never)]
fn any_number(bytes: &[u8]) -> Result<(u32, &[u8]), TokenFault>
    ensures { Reads (λ x. (x.0, x.1.now)) result (natural_at bytes.now) }
{
    let front = after_space(bytes);
    match front {
        [first, ..] if is_digit(*first) => digits(front),
        _ => Err(misplaced(bytes)),
    }
}

/// Reads the word at the start.
#[tactic(auto, unfolding(crate::specs::Mirrors::Parts::name_at))]
pub fn word(bytes: &[u8]) -> Result<(&[u8], &[u8]), TokenFault>
    ensures { Reads (λ x. (x.0.now, x.1.now)) result (name_at bytes.now) }
{
    match scan(bytes)? {
        (Token::Word(word), rest) => Ok((word, rest)),
        _ => Err(unexpected(bytes)),
    }
}

/// Reads the string at the start, and returns it without its quotes.
#[tactic(auto, unfolding(crate::specs::Mirrors::Parts::string_at))]
pub(crate) fn string(bytes: &[u8]) -> Result<(&[u8], &[u8]), TokenFault>
    ensures { Reads (λ x. (x.0.now, x.1.now)) result (string_at bytes.now) }
{
    match scan(bytes)? {
        (Token::Quoted(string), rest) => Ok((string, rest)),
        _ => Err(unexpected(bytes)),
    }
}

/// Reads the semicolon at the start, and returns the bytes after it.
#[inline(always)]
pub fn semicolon(bytes: &[u8]) -> Result<&[u8], TokenFault>
    ensures { Reads (λ x. x.now) result (semicolon_at bytes.now) }
{
    match after_byte(b';', bytes) {
        Some(rest) => Ok(rest),
        None => Err(misplaced(bytes)),
    }
}

/// Succeeds if only white space is left.
#[tactic(auto, unfolding(crate::specs::Mirrors::Parts::end_at))]
pub fn end(bytes: &[u8]) -> Result<(), TokenFault>
    ensures { Reads (λ x. x) result (end_at bytes.now) }
{
    match scan(bytes)? {
        (Token::End, _) => Ok(()),
        _ => Err(unexpected(bytes)),
    }
}

/// Reads a clause: this word, a number and a semicolon. It returns the number, or None and all the bytes if the word
/// isn't at the start.
#[tactic(auto, unfolding(crate::specs::Mirrors::Parts::clause_at))]
pub fn clause<'a>(name: &[u8], bytes: &'a [u8]) -> Result<(Option<u32>, &'a [u8]), TokenFault>
    ensures { Reads (λ x. (x.0, x.1.now)) result (clause_at name.now bytes.now) }
{
    match scan(bytes)? {
        (Token::Word(word), rest) if word == name => {
            let (number, rest) = natural(rest)?;
            let rest = semicolon(rest)?;
            Ok((Some(number), rest))
        }
        _ => Ok((None, bytes)),
    }
}

/// Reads a comma and the number after it. None if there is no comma.
#[tactic(auto, unfolding(crate::specs::Mirrors::Parts::further_at))]
pub(crate) fn further(bytes: &[u8]) -> Result<Option<(u32, &[u8])>, TokenFault>
    ensures { Reads (further_seen bytes.now) result (further_at bytes.now) }
{
    if let Some(rest) = after_byte(b',', bytes) {
        return Ok(Some(natural(rest)?));
    }
    match after_byte(b';', bytes) {
        Some(_) => Ok(None),
        None => {
            let _token = scan(bytes)?;
            Ok(None)
        }
    }
}

/// Reads one or more numbers separated by commas. They replace the contents of the list. Fails with `Memory` if memory
/// runs out.
#[tactic(auto, unfolding(crate::specs::Mirrors::Parts::numbers_at))]
pub fn numbers<'a>(list: &mut Vec<u32>, bytes: &'a [u8]) -> Result<&'a [u8], Refusal>
    ensures { Gives (λ rest. (list.new.items, rest.now)) result (numbers_at bytes.now) }
{
    let (first, mut rest) = natural(bytes)?;
    list.clear();
    list.push(first)?;
    'numbers: loop {
        match further(rest)? {
            Some((number, after)) => {
                list.push(number)?;
                rest = after;
            }
            None => return Ok(rest),
        }
    }
}
