//! Reads the headers of an automaton: its propositions and, if it is too large, the limit that it exceeds.

use memchr::memmem;
use pg_hoa_syntax::{Syntax, read_syntax};
use std::alloc::Global;

/// The mark after the headers of an automaton.
const BODY: &[u8] = b"--BODY--";

/// The text after the mark in an automaton without states.
const END: &[u8] = b"\n--END--\n";

/// The headers that state a number: the header, its name in a note, and the greatest number that it may state.
const LIMITS: [(&[u8], &str, u64); 3] = [
    (b"States:", "States", 65_535),
    (b"AP:", "AP", 16),
    (b"Acceptance:", "Acceptance", 4_096),
];

/// The most steps that an automaton may have: states times letters.
const MOST_STEPS: u64 = 16_777_216;

/// Why an automaton is too large, as far as its headers show it.
#[derive(Clone, Copy)]
pub(crate) enum Limit {
    /// The header with this name states the first number, and the limit is the second.
    Header(&'static str, u64, u64),
    /// The numbers of states and of letters, whose product is over the limit.
    Steps(u64, u64),
    /// Something else.
    Other,
}

/// Returns the headers of an automaton, with the mark after them, or None if there is no mark.
fn headers(text: &[u8]) -> Option<&[u8]> {
    let place = memmem::find(text, BODY)?;
    text.get(..place.saturating_add(BODY.len()))
}

/// Returns the contents of the headers. Returns None if they can't be read, or if memory runs out.
pub(crate) fn read_headers(alloc: Global, text: &[u8]) -> Option<Syntax> {
    let mut stateless = Vec::from_slice(alloc, headers(text)?).ok()?;
    stateless.extend_from_slice(END).ok()?;
    read_syntax(alloc, &stateless).ok()
}

/// Returns the number at the start, after white space.
fn number_in(text: &[u8]) -> Option<u64> {
    let mut number = None;
    for byte in text.trim_ascii_start() {
        if !byte.is_ascii_digit() {
            break;
        }
        let digit = u64::from(byte.saturating_sub(b'0'));
        number = Some(
            number
                .unwrap_or(0u64)
                .saturating_mul(10)
                .saturating_add(digit),
        );
    }
    number
}

/// Returns the number after the header with this name, which includes the colon, if there is white space before the header.
fn counted(headers: &[u8], name: &[u8]) -> Option<u64> {
    let mut before = b' ';
    for (place, byte) in headers.iter().enumerate() {
        let rest = headers.get(place..)?;
        if before.is_ascii_whitespace() && rest.starts_with(name) {
            return number_in(rest.get(name.len()..)?);
        }
        before = *byte;
    }
    None
}

/// Returns the limit that an automaton exceeds. The automaton was refused as too large.
pub(crate) fn limit_of(text: &[u8]) -> Limit {
    let headers = headers(text).unwrap_or(text);
    for (name, told, most) in LIMITS {
        match counted(headers, name) {
            Some(number) if number > most => return Limit::Header(told, number, most),
            _ => (),
        }
    }
    match (counted(headers, b"States:"), counted(headers, b"AP:")) {
        (Some(states), Some(propositions)) => steps_over(states, propositions),
        _ => Limit::Other,
    }
}

/// Returns the limit that an automaton with these states and propositions exceeds. Both numbers are within their own limits.
fn steps_over(states: u64, propositions: u64) -> Limit {
    let mut letters = 1u64;
    for _ in 0..propositions.min(16) {
        letters = letters.saturating_mul(2);
    }
    if states.saturating_mul(letters) > MOST_STEPS {
        Limit::Steps(states, letters)
    } else {
        Limit::Other
    }
}
