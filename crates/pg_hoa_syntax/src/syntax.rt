//! The contents of a text.

ghost use Rattle.std.specs.Prelude.{◌≡◌, ◌≤◌, ◌<◌, ◌*◌, ◌^◌, length, map, IfOk, IfErr, MatchBool};
ghost use Rattle.pg_hoa_syntax.specs.Mirrors.Steps.{Gives};
ghost use Rattle.pg_hoa_syntax.specs.Mirrors.Scan.{lex};
ghost use Rattle.pg_hoa_syntax.specs.Mirrors.Kept.{KeptHead, line_in, count_named};
ghost use Rattle.pg_hoa_syntax.specs.Mirrors.Preambles.{preamble_in, nothing_at};
ghost use Rattle.pg_hoa_syntax.specs.Mirrors.Readings.{bound, state_count, Reads, NeverReads, IsSyntaxOf, SaysNothing};

use crate::body::{Ranges, ReadState, read_body};
use crate::fault::{LeftOutName, PartFault, PartRefusal};
use crate::header::read_headers;
use crate::preamble::{Preamble, preamble_of};
use crate::token::{HoaToken, next_token};
use pg_hoa_automaton::Shape;
use std::alloc::Global;

/// The contents of a text: the number of states, the start state, the names of the propositions, for each proposition
/// whether the controller sets it, the number of sets, the shape of the condition, and the edges of each state that has
/// a line.
#[derive(Drop)]
pub struct Syntax {
    pub states: u32,
    pub start: u32,
    pub names: Vec<Vec<u8>>,
    pub controllable: Vec<bool>,
    pub sets: u32,
    pub shape: Shape,
    pub lines: Vec<ReadState>,
}

/// Reads a text within the limits of automata: at most 65,535 states, 16 propositions, 4,096 sets, and 16,777,216
/// states times letters. It doesn't check whether the edges agree. It fails with `Wrong` only if the text says no
/// automaton within these limits, deterministic or not, and with `Memory` if memory runs out.
pub fn read_syntax(alloc: Global, bytes: &[u8]) -> Result<Syntax, PartRefusal>
    ensures found { IfOk result (IsSyntaxOf bytes.now) }
    ensures refused { IfErr result (SaysNothing bytes.now) }
{
    let (preamble, lines) = parts(alloc, bytes)?;
    let states = states_of(&preamble, &lines);
    if !are_few(states, preamble.names.len() as u32) {
        return Err(PartRefusal::Wrong(PartFault::TooLarge));
    }
    Ok(Syntax {
        states,
        start: preamble.start,
        names: preamble.names,
        controllable: preamble.controllable,
        sets: preamble.sets,
        shape: preamble.shape,
        lines,
    })
}

/// Reads the headers of a text and its lines.
fn parts(alloc: Global, bytes: &[u8]) -> Result<(Preamble, Vec<ReadState>), PartRefusal>
    ensures found { IfOk result (λ x. (h : KeptHead) × Reads (lex bytes.now) h (preamble_in x.0) (map line_in x.1.items)) }
    ensures refused { IfErr result (NeverReads (lex bytes.now)) }
{
    let (head, left, rest) = read_headers(alloc, bytes)?;
    let preamble = preamble_of(alloc, head, left)?;
    let (lines, rest) = read_body(alloc, ranges(&preamble), rest)?;
    end(rest)?;
    Ok((preamble, lines))
}

/// Returns the ranges of the numbers in the body.
fn ranges(preamble: &Preamble) -> Ranges
    requires { length preamble.now.names.items ≤ 16 }
    ensures states { result.states ≡ bound preamble.now.states }
    ensures propositions { result.propositions ≡ length preamble.now.names.items }
    ensures sets { result.sets ≡ preamble.now.sets }
{
    Ranges {
        states: preamble.states.unwrap_or(65_535),
        propositions: preamble.names.len() as u32,
        sets: preamble.sets,
    }
}

/// Refuses anything but white space and comments after the end.
fn end(bytes: &[u8]) -> Result<(), PartRefusal>
    ensures { Gives (λ _. 0) result (nothing_at (lex bytes.now)) }
{
    let (token, left, _) = next_token(bytes)?;
    match token {
        None => Ok(()),
        Some(HoaToken::Header(b"HOA")) => Err(PartRefusal::Wrong(PartFault::LeftOut(
            LeftOutName::SeveralAutomata,
            left,
        ))),
        Some(_) => Err(PartRefusal::Wrong(PartFault::Syntax(left))),
    }
}

/// Returns the number of states: the number that the headers give, or else one more than the greatest state that is
/// named.
fn states_of(preamble: &Preamble, lines: &[ReadState]) -> u32
    ensures { state_count (preamble_in preamble.now) (map line_in lines.now) < 2 ^ 32
        → result ≡ state_count (preamble_in preamble.now) (map line_in lines.now) }
{
    match preamble.states {
        Some(states) => states,
        None => states_named(lines, preamble.start),
    }
}

/// Returns one more than the greatest of `start` and the states that the lines name, if it is below 2^32.
fn states_named(lines: &[ReadState], start: u32) -> u32
    ensures { count_named start (map line_in lines.now) < 2 ^ 32
        → result ≡ count_named start (map line_in lines.now) }
{
    let mut greatest = start;
    for line in lines {
        greatest = greatest.max(line.greatest);
    }
    greatest.saturating_add(1)
}

/// Whether a table of `states` states by the letters of `propositions` propositions is within the limit.
fn are_few(states: u32, propositions: u32) -> bool
    requires { propositions ≤ 16 }
    ensures { MatchBool result (states * 2 ^ propositions ≤ 16777216) (states * 2 ^ propositions ≤ 16777216 → ⊥) }
{
    states <= 16_777_216 >> propositions
}
