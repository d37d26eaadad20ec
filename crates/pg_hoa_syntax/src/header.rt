//! The headers of a text.

ghost use Rattle.std.specs.Prelude.{◌≡◌, [], ◌==◌, IfOk, OnOk, option_map, map};
ghost use Rattle.std.specs.List.{list_any};
ghost use Rattle.pg_hoa_syntax.specs.Mirrors.Steps.{Gives};
ghost use Rattle.pg_hoa_syntax.specs.Mirrors.Scan.{characters, lex, lexeme};
ghost use Rattle.pg_hoa_syntax.specs.Syntax.{character_code};
ghost use Rattle.pg_hoa_syntax.specs.Mirrors.Kept.{KeptHead, head_in};
ghost use Rattle.pg_hoa_syntax.specs.Mirrors.HeaderScan.{numeral_of, numeral_at, alone_at, note, noted_at, is_value, skipped_from, code_at};
ghost use Rattle.pg_hoa_syntax.specs.Mirrors.HeaderScan.{is_name_byte, is_name, quoted_of, quoted_at, names_from, states_at, start_at};
ghost use Rattle.pg_hoa_syntax.specs.Mirrors.HeaderScan.{names_at, acceptance_at, controls_at, begins_low, other_at, header_at};
ghost use Rattle.pg_hoa_syntax.specs.Mirrors.HeaderScan.{opening_at, version_at, headers_from, headers_at};

use crate::fault::{LeftOutName, PartFault, PartRefusal};
use crate::formula::{FormulaKind, Op, read_formula};
use crate::token::{HoaToken, next_token, unexpected};
use std::alloc::{AllocError, Global};

/// The contents of the headers. A number that may be out of range comes with the number of bytes left from it on.
#[derive(Drop)]
pub struct Head {
    pub states: Option<u32>,
    pub start: Option<(u32, usize)>,
    pub names: Option<Vec<Vec<u8>>>,
    pub controls: Option<Vec<(u32, usize)>>,
    pub acceptance: Option<(u32, Vec<Op>)>,
}

/// Returns the fault where another token must come, at the token that was found or at the end of the text.
fn misplaced(found: Option<HoaToken<'_>>, left: usize) -> PartFault {
    match found {
        Some(token) => unexpected(token, left),
        None => PartFault::Syntax(left),
    }
}

/// Returns the number, if one was found.
fn number(found: Option<HoaToken<'_>>) -> Option<u32>
    ensures { result ≡ numeral_of (option_map lexeme found.entry) }
{
    match found {
        Some(HoaToken::Number(n)) => Some(n),
        _ => None,
    }
}

/// Whether the token that was found can be a value of a header that is skipped.
fn is_value(found: Option<HoaToken<'_>>) -> bool
    ensures { result ≡ is_value (option_map lexeme found.entry) }
{
    match found {
        Some(HoaToken::Number(_)) => true,
        Some(HoaToken::Identifier(_)) => true,
        Some(HoaToken::String(_)) => true,
        _ => false,
    }
}

/// Reads a number of at most `limit`, and returns it with the number of bytes left from it on and the bytes after it.
#[tactic(auto, unfolding(crate::specs::Mirrors::HeaderScan::numeral_at))]
fn read_number(limit: u32, bytes: &[u8]) -> Result<(u32, usize, &[u8]), PartRefusal>
    ensures { Gives (λ x. (x.0, lex x.2.now)) result (numeral_at limit (lex bytes.now)) }
{
    let (found, left, rest) = next_token(bytes)?;
    match number(found) {
        Some(n) => {
            if n > limit {
                Err(PartRefusal::Wrong(PartFault::TooLarge))
            } else {
                Ok((n, left, rest))
            }
        }
        None => Err(PartRefusal::Wrong(misplaced(found, left))),
    }
}

/// Returns the bytes after the number of `Start:` as they are, unless they begin with an `&`, which it refuses.
#[tactic(auto, unfolding(crate::specs::Mirrors::HeaderScan::alone_at))]
fn alone(bytes: &[u8]) -> Result<&[u8], PartRefusal>
    ensures { Gives (λ x. lex x.now) result (alone_at (lex bytes.now)) }
{
    let (found, left, _) = next_token(bytes)?;
    match found {
        Some(HoaToken::Ampersand) => Err(PartRefusal::Wrong(PartFault::LeftOut(
            LeftOutName::Universal,
            left,
        ))),
        _ => Ok(bytes),
    }
}

/// Whether the number is in the list.
pub fn is_noted(numbers: &[(u32, usize)], number: usize) -> bool
    ensures { result ≡ list_any (λ x. x.0 == number) numbers.now }
{
    numbers.iter().any(|noted| noted.0 as usize == number)
}

/// Appends a number, unless it is in the list. All numbers from 16 on, which no proposition has, are noted as 16.
fn note(numbers: &mut Vec<(u32, usize)>, number: u32, left: usize) -> Result<(), AllocError>
    ensures { OnOk result (map (λ y. y.0) numbers.new.items ≡ note (map (λ y. y.0) numbers.old.items) number) }
{
    let number = number.min(16);
    if is_noted(numbers, number as usize) {
        return Ok(());
    }
    numbers.push((number, left))?;
    Ok(())
}

/// Reads numbers up to another token. Returns them as `note` keeps them, each with the number of bytes left from its
/// first occurrence on, and the bytes after them.
fn read_numbers(alloc: Global, bytes: &[u8]) -> Result<(Vec<(u32, usize)>, &[u8]), PartRefusal>
    ensures { Gives (λ x. (map (λ y. y.0) x.0.items, lex x.1.now)) result (noted_at (lex bytes.now)) }
{
    let mut numbers = Vec::new(alloc);
    let mut rest = bytes;
    'numbers: loop {
        let (found, left, after) = next_token(rest)?;
        match number(found) {
            Some(n) => {
                note(&mut numbers, n, left)?;
                rest = after;
            }
            None => return Ok((numbers, rest)),
        }
    }
}

/// Returns the bytes after the values of a header that is skipped.
fn skip_values(bytes: &[u8]) -> Result<&[u8], PartRefusal>
    ensures { Gives (λ x. lex x.now) result (skipped_from (lex bytes.now)) }
{
    let mut rest = bytes;
    'values: loop {
        let (found, _, after) = next_token(rest)?;
        if !is_value(found) {
            return Ok(rest);
        }
        rest = after;
    }
}

/// Returns the first character of a string's content, without a backslash before it, and the bytes after it.
fn character(content: &[u8]) -> Option<(u8, &[u8])>
    ensures { option_map (λ x. (x.0, x.1.now)) result ≡ code_at content.now }
{
    match content {
        [] => None,
        [one, tail @ ..] => match tail {
            [] => Some((*one, tail)),
            [two, after @ ..] => {
                if *one == b'\\' {
                    Some((*two, after))
                } else {
                    Some((*one, tail))
                }
            }
        },
    }
}

/// Returns a string's content, with each backslash before another byte removed.
fn unescaped(alloc: Global, content: &[u8]) -> Result<Vec<u8>, AllocError>
    ensures { IfOk result (λ v. v.items ≡ map character_code (characters content.now)) }
{
    let mut name = Vec::new(alloc);
    let mut rest = content;
    'characters: loop {
        match character(rest) {
            None => return Ok(name),
            Some((code, after)) => {
                name.push(code)?;
                rest = after;
            }
        }
    }
}

/// Whether a name may contain the byte.
fn is_name_byte(byte: u8) -> bool
    ensures { result ≡ is_name_byte byte }
{
    byte >= 32 && byte != 127
}

/// Whether a proposition may have the name.
fn is_name(name: &[u8]) -> bool
    ensures { result ≡ is_name name.now }
{
    !name.is_empty() && name.iter().all(|byte| is_name_byte(*byte))
}

/// Returns the name of the proposition with this number from the token that was found, `left` bytes before the end,
/// which must be a string.
#[tactic(auto, unfolding(crate::specs::Mirrors::HeaderScan::name_of))]
fn name_in(
    alloc: Global,
    proposition: u32,
    found: Option<HoaToken<'_>>,
    left: usize,
) -> Result<Vec<u8>, PartRefusal>
    ensures { Gives (λ v. v.items) result (quoted_of (option_map lexeme found.entry)) }
{
    match found {
        Some(HoaToken::String(content)) => {
            let name = unescaped(alloc, content)?;
            if is_name(&name) {
                Ok(name)
            } else {
                Err(PartRefusal::Wrong(PartFault::BadName(proposition)))
            }
        }
        _ => Err(PartRefusal::Wrong(misplaced(found, left))),
    }
}

/// Reads the name of the proposition with this number, and returns it with the bytes after it.
#[tactic(auto, unfolding(crate::specs::Mirrors::HeaderScan::quoted_at))]
fn read_name(alloc: Global, proposition: u32, bytes: &[u8]) -> Result<(Vec<u8>, &[u8]), PartRefusal>
    ensures { Gives (λ x. (x.0.items, lex x.1.now)) result (quoted_at (lex bytes.now)) }
{
    let (found, left, rest) = next_token(bytes)?;
    Ok((name_in(alloc, proposition, found, left)?, rest))
}

/// Reads `count` names, and returns them with the bytes after them.
fn read_names(alloc: Global, count: u32, bytes: &[u8]) -> Result<(Vec<Vec<u8>>, &[u8]), PartRefusal>
    ensures { Gives (λ x. (map (λ name. name.items) x.0.items, lex x.1.now)) result
        (names_from count [] (lex bytes.now)) }
{
    let mut names = Vec::new(alloc);
    let mut rest = bytes;
    'names: for proposition in 0..count {
        let (name, after) = read_name(alloc, proposition, rest)?;
        names.push(name)?;
        rest = after;
    }
    Ok((names, rest))
}

/// Reads the value of the header `States:`, whose name is `left` bytes before the end, into the head. Returns the bytes
/// after it.
#[tactic(auto, unfolding(crate::specs::Mirrors::HeaderScan::states_at))]
fn states<'a>(head: &mut Head, left: usize, bytes: &'a [u8]) -> Result<&'a [u8], PartRefusal>
    ensures { Gives (λ x. (head_in head.new, lex x.now)) result (states_at (head_in head.old) (lex bytes.now)) }
{
    if head.states.is_some() {
        return Err(PartRefusal::Wrong(PartFault::Syntax(left)));
    }
    let (count, _, rest) = read_number(65_535, bytes)?;
    head.states = Some(count);
    Ok(rest)
}

/// Reads the value of the header `Start:`, whose name is `left` bytes before the end, into the head. Returns the bytes
/// after it.
#[tactic(auto, unfolding(crate::specs::Mirrors::HeaderScan::start_at))]
fn start<'a>(head: &mut Head, left: usize, bytes: &'a [u8]) -> Result<&'a [u8], PartRefusal>
    ensures { Gives (λ x. (head_in head.new, lex x.now)) result (start_at (head_in head.old) (lex bytes.now)) }
{
    if head.start.is_some() {
        return Err(PartRefusal::Wrong(PartFault::LeftOut(LeftOutName::SeveralStarts, left)));
    }
    let (state, place, rest) = read_number(65_534, bytes)?;
    let rest = alone(rest)?;
    head.start = Some((state, place));
    Ok(rest)
}

/// Reads the values of the header `AP:`, whose name is `left` bytes before the end, into the head. Returns the bytes
/// after them.
#[tactic(auto, unfolding(crate::specs::Mirrors::HeaderScan::names_at))]
fn names<'a>(
    alloc: Global,
    head: &mut Head,
    left: usize,
    bytes: &'a [u8],
) -> Result<&'a [u8], PartRefusal>
    ensures { Gives (λ x. (head_in head.new, lex x.now)) result (names_at (head_in head.old) (lex bytes.now)) }
{
    if head.names.is_some() {
        return Err(PartRefusal::Wrong(PartFault::Syntax(left)));
    }
    let (count, _, rest) = read_number(16, bytes)?;
    let (names, rest) = read_names(alloc, count, rest)?;
    head.names = Some(names);
    Ok(rest)
}

/// Reads the values of the header `Acceptance:`, whose name is `left` bytes before the end, into the head. Returns the
/// bytes after them.
#[tactic(auto, unfolding(crate::specs::Mirrors::HeaderScan::acceptance_at))]
fn acceptance<'a>(
    alloc: Global,
    head: &mut Head,
    left: usize,
    bytes: &'a [u8],
) -> Result<&'a [u8], PartRefusal>
    ensures { Gives (λ x. (head_in head.new, lex x.now)) result (acceptance_at (head_in head.old) (lex bytes.now)) }
{
    if head.acceptance.is_some() {
        return Err(PartRefusal::Wrong(PartFault::Syntax(left)));
    }
    let (sets, _, rest) = read_number(4_096, bytes)?;
    let (ops, rest) = read_formula(alloc, FormulaKind::Condition(sets), rest)?;
    head.acceptance = Some((sets, ops));
    Ok(rest)
}

/// Reads the values of the header `controllable-AP:`, whose name is `left` bytes before the end, into the head. Returns
/// the bytes after them.
#[tactic(auto, unfolding(crate::specs::Mirrors::HeaderScan::controls_at))]
fn controls<'a>(
    alloc: Global,
    head: &mut Head,
    left: usize,
    bytes: &'a [u8],
) -> Result<&'a [u8], PartRefusal>
    ensures { Gives (λ x. (head_in head.new, lex x.now)) result (controls_at (head_in head.old) (lex bytes.now)) }
{
    if head.controls.is_some() {
        return Err(PartRefusal::Wrong(PartFault::Syntax(left)));
    }
    let (controls, rest) = read_numbers(alloc, bytes)?;
    head.controls = Some(controls);
    Ok(rest)
}

/// Whether the name begins with a lower-case letter or `_`.
fn begins_low(name: &[u8]) -> bool
    ensures { result ≡ begins_low name.now }
{
    match name {
        [] => false,
        [first, ..] => *first >= b'a' || *first == b'_',
    }
}

/// Skips the values of a header with any other name and returns the bytes after them, or refuses the header.
#[tactic(auto, unfolding(crate::specs::Mirrors::HeaderScan::other_at))]
fn other<'a>(name: &[u8], left: usize, bytes: &'a [u8]) -> Result<&'a [u8], PartRefusal>
    ensures { (h : KeptHead) → Gives (λ x. (h, lex x.now)) result (other_at h name.now (lex bytes.now)) }
{
    if begins_low(name) {
        skip_values(bytes)
    } else if name == b"Alias".as_slice() {
        Err(PartRefusal::Wrong(PartFault::LeftOut(LeftOutName::Alias, left)))
    } else {
        Err(PartRefusal::Wrong(PartFault::UnknownHeader(left)))
    }
}

/// Reads the values of the header with this name, which is `left` bytes before the end, into the head. Returns the
/// bytes after them.
#[tactic(auto, unfolding(crate::specs::Mirrors::HeaderScan::header_at))]
fn header<'a>(
    alloc: Global,
    head: &mut Head,
    name: &[u8],
    left: usize,
    bytes: &'a [u8],
) -> Result<&'a [u8], PartRefusal>
    ensures { Gives (λ x. (head_in head.new, lex x.now)) result
        (header_at (head_in head.old) name.now (lex bytes.now)) }
{
    if name == b"States".as_slice() {
        states(head, left, bytes)
    } else if name == b"Start".as_slice() {
        start(head, left, bytes)
    } else if name == b"AP".as_slice() {
        names(alloc, head, left, bytes)
    } else if name == b"Acceptance".as_slice() {
        acceptance(alloc, head, left, bytes)
    } else if name == b"controllable-AP".as_slice() {
        controls(alloc, head, left, bytes)
    } else {
        other(name, left, bytes)
    }
}

/// Reads `HOA:`, and returns the bytes after it.
#[tactic(auto, unfolding(crate::specs::Mirrors::HeaderScan::opening_at))]
pub fn opening(bytes: &[u8]) -> Result<&[u8], PartRefusal>
    ensures { Gives (λ x. lex x.now) result (opening_at (lex bytes.now)) }
{
    let (found, left, rest) = next_token(bytes)?;
    match found {
        Some(HoaToken::Header(name)) if name == b"HOA".as_slice() => Ok(rest),
        _ => Err(PartRefusal::Wrong(misplaced(found, left))),
    }
}

/// Reads `v1`, and returns the bytes after it.
#[tactic(auto, unfolding(crate::specs::Mirrors::HeaderScan::version_at))]
pub fn version(bytes: &[u8]) -> Result<&[u8], PartRefusal>
    ensures { Gives (λ x. lex x.now) result (version_at (lex bytes.now)) }
{
    let (found, left, rest) = next_token(bytes)?;
    match found {
        Some(HoaToken::Identifier(word)) if word == b"v1".as_slice() => Ok(rest),
        _ => Err(PartRefusal::Wrong(misplaced(found, left))),
    }
}

/// Reads the headers up to `--BODY--` into the head. Returns the number of bytes left from `--BODY--` on, and the bytes
/// after it.
fn headers<'a>(
    alloc: Global,
    head: &mut Head,
    bytes: &'a [u8],
) -> Result<(usize, &'a [u8]), PartRefusal>
    ensures { Gives (λ x. (head_in head.new, lex x.1.now)) result
        (headers_from (head_in head.old) (lex bytes.now)) }
{
    let mut rest = bytes;
    'headers: loop {
        let (found, left, after) = next_token(rest)?;
        match found {
            Some(token) => match token {
                HoaToken::Body => return Ok((left, after)),
                HoaToken::Header(name) => rest = header(alloc, head, name, left, after)?,
                _ => return Err(PartRefusal::Wrong(unexpected(token, left))),
            },
            None => return Err(PartRefusal::Wrong(PartFault::Syntax(left))),
        }
    }
}

/// Reads the headers from the first byte up to `--BODY--`. Returns their contents, the number of bytes left from
/// `--BODY--` on, and the bytes after it.
#[tactic(auto, unfolding(crate::specs::Mirrors::HeaderScan::headers_at))]
pub fn read_headers(alloc: Global, bytes: &[u8]) -> Result<(Head, usize, &[u8]), PartRefusal>
    ensures { Gives (λ x. (head_in x.0, lex x.2.now)) result (headers_at (lex bytes.now)) }
{
    let first = version(opening(bytes)?)?;
    let mut head = Head {
        states: None,
        start: None,
        names: None,
        controls: None,
        acceptance: None,
    };
    let (left, rest) = headers(alloc, &mut head, first)?;
    Ok((head, left, rest))
}
