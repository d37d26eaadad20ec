//! Turns the words of a text into tokens and a list of names.

ghost use Rattle.std.specs.Prelude.{◌≡◌, ◌≤◌, ◌++◌, ◌∷◌, [], length, map, IfOk};
ghost use Rattle.pg_ltl.specs.Texts.{note, number_of, with_name};
ghost use Rattle.pg_ltl.specs.Words.{sign};
ghost use Rattle.pg_ltl.specs.Mirrors.Scan.{as_word};
ghost use Rattle.pg_ltl.specs.Mirrors.Notes.{IsTextOf, noted_in, stop_at};

use crate::token::FormulaToken;
use crate::word::{Word, behind_blanks, word_at};
use std::alloc::{AllocError, Global};

/// The most names that a text may have.
const MOST_NAMES: usize = 65_535;

/// The names of a text in order of first appearance, its tokens, and the offset of each token's first byte.
#[derive(Drop)]
pub struct Tokens {
    pub names: Vec<Vec<u8>>,
    pub tokens: Vec<FormulaToken>,
    pub offsets: Vec<usize>,
}

/// Why reading of words stopped.
#[derive(Clone, Copy)]
pub enum Stop {
    /// The text ended.
    End,
    /// No word begins at the next byte.
    NoWord,
    /// There were more than 65,535 names.
    Overfull,
}

/// The tokens of a text up to the byte `end`, and why they stop there.
#[derive(Drop)]
pub struct Text {
    pub tokens: Tokens,
    pub stop: Stop,
    pub end: usize,
}

/// Returns the number of a name: its position among the known names, or their count if it isn't one of them.
fn number_of(names: &[Vec<u8>], name: &[u8]) -> usize
    ensures value { result ≡ number_of name.now (map (λ v. v.items) names.now) }
    ensures within { result ≤ length names.now }
{
    for (place, known) in names.iter().enumerate() {
        if known.as_slice() == name {
            return place;
        }
    }
    names.len()
}

/// Returns the tokens with one more, which begins at the byte `offset`.
fn pushed(mut tokens: Tokens, token: FormulaToken, offset: usize) -> Result<Tokens, AllocError>
    ensures value { IfOk result (λ t. noted_in t ≡ note (noted_in tokens) (sign token)) }
    ensures offsets { IfOk result (λ t. t.offsets.items ≡ tokens.offsets.items ++ (offset ∷ [])) }
{
    tokens.tokens.push(token)?;
    tokens.offsets.push(offset)?;
    Ok(tokens)
}

/// Returns the names, with this one appended if it is new.
fn named(
    alloc: Global,
    mut names: Vec<Vec<u8>>,
    name: &[u8],
    number: usize,
) -> Result<Vec<Vec<u8>>, AllocError>
    requires { number ≡ number_of name.now (map (λ v. v.items) names.items) }
    ensures { IfOk result (λ v. map (λ v. v.items) v.items ≡ with_name name.now (map (λ v. v.items) names.items)) }
{
    if number < names.len() {
        return Ok(names);
    }
    names.push(Vec::from_slice(alloc, name)?)?;
    Ok(names)
}

/// Returns the tokens with one more word, which begins at the byte `offset`.
fn noted(alloc: Global, tokens: Tokens, word: Word<'_>, offset: usize) -> Result<Tokens, AllocError>
    requires { length tokens.names.items ≤ 65535 }
    ensures value { IfOk result (λ t. noted_in t ≡ note (noted_in tokens) (as_word word.entry)) }
    ensures offsets { IfOk result (λ t. t.offsets.items ≡ tokens.offsets.items ++ (offset ∷ [])) }
{
    match word {
        Word::Sign(token) => Ok(pushed(tokens, token, offset)?),
        Word::Name(name) => {
            let number = number_of(&tokens.names, name);
            let names = named(alloc, tokens.names, name, number)?;
            let tokens = Tokens {
                names,
                tokens: tokens.tokens,
                offsets: tokens.offsets,
            };
            Ok(pushed(tokens, FormulaToken::Proposition(number as u32), offset)?)
        }
    }
}

/// Says why no word can be read at the start of these bytes.
fn stop_at(bytes: &[u8]) -> Stop
    ensures { result ≡ stop_at bytes.now }
{
    match bytes {
        [] => Stop::End,
        _ => Stop::NoWord,
    }
}

/// Splits a text into tokens and names: up to its end, to the first byte where no word begins, or to the 65,536th name.
pub fn text_of(alloc: Global, bytes: &[u8]) -> Result<Text, AllocError>
    ensures { IfOk result (λ text. IsTextOf bytes.now text.tokens text.stop text.end) }
{
    let mut tokens = Tokens {
        names: Vec::new(alloc),
        tokens: Vec::new(alloc),
        offsets: Vec::new(alloc),
    };
    let mut rest = bytes;
    'words: loop {
        let solid = behind_blanks(rest);
        let end = bytes.len().saturating_sub(solid.len());
        if tokens.names.len() > MOST_NAMES {
            return Ok(Text {
                tokens,
                stop: Stop::Overfull,
                end,
            });
        }
        match word_at(solid) {
            Some((word, after)) => {
                tokens = noted(alloc, tokens, word, end)?;
                rest = after;
            }
            None => {
                return Ok(Text {
                    tokens,
                    stop: stop_at(solid),
                    end,
                });
            }
        }
    }
}
