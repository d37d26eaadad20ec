//! The states and edges of a text.

ghost use Rattle.std.specs.Prelude.{◌≡◌, ◌≤◌, ◌<◌, ◌++◌, ◌∷◌, [], map, length, slice_index_or, IfOk, OnOk, false};
ghost use Rattle.std.specs.List.Sorted.{IsStrictlyIncreasing};
ghost use Rattle.pg_list_lemmas.specs.Rising.{put};
ghost use Rattle.pg_hoa_syntax.specs.Mirrors.Steps.{Gives};
ghost use Rattle.pg_hoa_syntax.specs.Mirrors.Scan.{lexeme, lex};
ghost use Rattle.pg_hoa_syntax.specs.Mirrors.Kept.{edge_in, line_in, may_hold, kept_edges};
ghost use Rattle.pg_hoa_syntax.specs.Mirrors.BodyScan.{due, state_of, new_state, set_in, rising_sets_at, sets_if, behind_label, target_at};
ghost use Rattle.pg_hoa_syntax.specs.Mirrors.BodyScan.{edge_at, begins_edge, kept_edges_at, behind_name, line_at, begins_line, body_at};

use crate::fault::{LeftOutName, PartFault, PartRefusal};
use crate::formula::{FormulaKind, Op, read_formula};
use crate::token::{HoaToken, next_token, unexpected};
use std::alloc::{AllocError, Global};

/// An edge as it is read: its label, the state that it leads to, and the sets written after it, each once and the least
/// first.
#[derive(Drop)]
pub struct ReadEdge {
    pub label: Vec<Op>,
    pub target: u32,
    pub sets: Vec<u32>,
}

/// A state as it is read: its number, the greatest of this and the states that its edges lead to, its own sets, each
/// once and the least first, and the edges that leave it and whose label a letter may match.
#[derive(Drop)]
pub struct ReadState {
    pub state: u32,
    pub greatest: u32,
    pub sets: Vec<u32>,
    pub edges: Vec<ReadEdge>,
}

/// The numbers of states, propositions and sets that there may be: each number in the body must be below its count.
#[derive(Clone, Copy)]
pub struct Ranges {
    /// The number that `States:` gives, or 65,535 without it.
    pub states: u32,
    pub propositions: u32,
    pub sets: u32,
}

/// Reads the token that must come next, and returns it with the number of bytes left from it on and the bytes after it.
#[tactic(auto, unfolding(crate::specs::Mirrors::BodyScan::due))]
fn due_token(bytes: &[u8]) -> Result<(HoaToken<'_>, usize, &[u8]), PartRefusal>
    ensures { Gives (λ x. (lexeme x.0, lex x.2.now)) result (due (lex bytes.now)) }
{
    let (found, left, rest) = next_token(bytes)?;
    match found {
        Some(token) => Ok((token, left, rest)),
        None => Err(PartRefusal::Wrong(PartFault::Syntax(left))),
    }
}

/// Returns the number of a state, which must be below `states`.
#[tactic(auto, unfolding(crate::specs::Mirrors::BodyScan::state_of))]
fn state_of(states: u32, token: HoaToken<'_>, left: usize) -> Result<u32, PartRefusal>
    requires { states ≤ 65535 }
    ensures value { Gives (λ x. x) result (state_of states (lexeme token.entry)) }
    ensures below { IfOk result (λ x. x < states) }
{
    match token {
        HoaToken::Number(state) => {
            if state > 65_534 {
                Err(PartRefusal::Wrong(PartFault::TooLarge))
            } else if state >= states {
                Err(PartRefusal::Wrong(PartFault::OutOfRange(left)))
            } else {
                Ok(state)
            }
        }
        _ => Err(PartRefusal::Wrong(unexpected(token, left))),
    }
}

/// Returns the number of a state that has no line so far.
#[tactic(auto, unfolding(crate::specs::Mirrors::BodyScan::new_state, crate::specs::Mirrors::BodyScan::state_of))]
fn new_state(
    states: u32,
    seen: &[bool],
    token: HoaToken<'_>,
    left: usize,
) -> Result<u32, PartRefusal>
    requires few { states ≤ 65535 }
    requires all { length seen.now ≡ states }
    ensures value { Gives (λ x. x) result
        (new_state states (λ n. slice_index_or seen.now n false) (lexeme token.entry)) }
    ensures below { IfOk result (λ x. x < states) }
{
    match token {
        HoaToken::LeftBracket => Err(PartRefusal::Wrong(PartFault::LeftOut(
            LeftOutName::StateLabel,
            left,
        ))),
        _ => {
            let state = state_of(states, token, left)?;
            if seen[state as usize] {
                Err(PartRefusal::Wrong(PartFault::Syntax(left)))
            } else {
                Ok(state)
            }
        }
    }
}

/// Returns a number between the braces around sets, or None at the last brace.
#[tactic(auto, unfolding(crate::specs::Mirrors::BodyScan::set_in))]
fn set_in(sets: u32, token: HoaToken<'_>, left: usize) -> Result<Option<u32>, PartRefusal>
    ensures { Gives (λ x. x) result (set_in sets (lexeme token.entry)) }
{
    match token {
        HoaToken::Number(set) => {
            if set < sets {
                Ok(Some(set))
            } else {
                Err(PartRefusal::Wrong(PartFault::OutOfRange(left)))
            }
        }
        HoaToken::RightBrace => Ok(None),
        _ => Err(PartRefusal::Wrong(unexpected(token, left))),
    }
}

/// Inserts a number in its place among numbers that rise, unless it is there.
fn put(numbers: &mut Vec<u32>, number: u32) -> Result<(), AllocError>
    requires { IsStrictlyIncreasing numbers.old.items }
    ensures { OnOk result (numbers.new.items ≡ put number numbers.old.items) }
{
    match numbers.binary_search(&number) {
        Ok(_) => Ok(()),
        Err(place) => {
            numbers.insert(place, number)?;
            Ok(())
        }
    }
}

/// Reads the numbers after `{` up to `}`, and returns them, each once and the least first, with the bytes after the
/// `}`.
fn read_sets(alloc: Global, sets: u32, bytes: &[u8]) -> Result<(Vec<u32>, &[u8]), PartRefusal>
    ensures { Gives (λ x. (x.0.items, lex x.1.now)) result (rising_sets_at sets (lex bytes.now)) }
{
    let mut numbers = Vec::new(alloc);
    let mut rest = bytes;
    'numbers: loop {
        let (token, left, after) = due_token(rest)?;
        match set_in(sets, token, left)? {
            Some(set) => {
                put(&mut numbers, set)?;
                rest = after;
            }
            None => return Ok((numbers, after)),
        }
    }
}

/// Reads the sets if there is a `{`, or else takes nothing. Returns the sets, and the bytes after them.
#[tactic(auto, unfolding(crate::specs::Mirrors::BodyScan::sets_if))]
fn sets_if(alloc: Global, sets: u32, bytes: &[u8]) -> Result<(Vec<u32>, &[u8]), PartRefusal>
    ensures { Gives (λ x. (x.0.items, lex x.1.now)) result (sets_if sets (lex bytes.now)) }
{
    let (token, _, rest) = due_token(bytes)?;
    match token {
        HoaToken::LeftBrace => read_sets(alloc, sets, rest),
        _ => Ok((Vec::new(alloc), bytes)),
    }
}

/// Returns the bytes after the `]` that must come next.
#[tactic(auto, unfolding(crate::specs::Mirrors::BodyScan::behind_label))]
fn behind_label(bytes: &[u8]) -> Result<&[u8], PartRefusal>
    ensures { Gives (λ x. lex x.now) result (behind_label (lex bytes.now)) }
{
    let (token, left, rest) = due_token(bytes)?;
    match token {
        HoaToken::RightBracket => Ok(rest),
        _ => Err(PartRefusal::Wrong(unexpected(token, left))),
    }
}

/// Reads the state that an edge leads to, which no `&` may follow, and returns it with the bytes after it.
#[tactic(auto, unfolding(crate::specs::Mirrors::BodyScan::target_at))]
fn read_target(states: u32, bytes: &[u8]) -> Result<(u32, &[u8]), PartRefusal>
    requires { states ≤ 65535 }
    ensures { Gives (λ x. (x.0, lex x.1.now)) result (target_at states (lex bytes.now)) }
{
    let (token, left, rest) = due_token(bytes)?;
    let target = state_of(states, token, left)?;
    let (next, next_left, _) = due_token(rest)?;
    match next {
        HoaToken::Ampersand => Err(PartRefusal::Wrong(PartFault::LeftOut(
            LeftOutName::Universal,
            next_left,
        ))),
        _ => Ok((target, rest)),
    }
}

/// Reads an edge after its `[`, and returns it with the bytes after it.
#[tactic(auto, unfolding(crate::specs::Mirrors::BodyScan::edge_at))]
fn read_edge(alloc: Global, ranges: Ranges, bytes: &[u8]) -> Result<(ReadEdge, &[u8]), PartRefusal>
    requires { ranges.states ≤ 65535 }
    ensures { Gives (λ x. (edge_in x.0, lex x.1.now)) result
        (edge_at ranges.states ranges.propositions ranges.sets (lex bytes.now)) }
{
    let (label, rest) = read_formula(alloc, FormulaKind::Label(ranges.propositions), bytes)?;
    let rest = behind_label(rest)?;
    let (target, rest) = read_target(ranges.states, rest)?;
    let (sets, rest) = sets_if(alloc, ranges.sets, rest)?;
    Ok((
        ReadEdge {
            label,
            target,
            sets,
        },
        rest,
    ))
}

/// Whether an edge begins. A number there is an edge without a label, which is refused.
#[tactic(auto, unfolding(crate::specs::Mirrors::BodyScan::begins_edge))]
fn begins_edge(token: HoaToken<'_>, left: usize) -> Result<bool, PartRefusal>
    ensures { Gives (λ x. x) result (begins_edge (lexeme token.entry)) }
{
    match token {
        HoaToken::LeftBracket => Ok(true),
        HoaToken::Number(_) => Err(PartRefusal::Wrong(PartFault::LeftOut(
            LeftOutName::ImplicitLabel,
            left,
        ))),
        _ => Ok(false),
    }
}

/// Whether a letter may match the label: it isn't the constant that no letter matches.
fn may_hold(label: &[Op]) -> bool
    ensures { result ≡ may_hold label.now }
{
    match label {
        [Op::No] => false,
        _ => true,
    }
}

/// Appends an edge, if a letter may match its label.
fn keep(edges: &mut Vec<ReadEdge>, edge: ReadEdge) -> Result<(), AllocError>
    ensures { OnOk result (map edge_in edges.new.items ≡ map edge_in edges.old.items ++ kept_edges (edge_in edge ∷ [])) }
{
    if may_hold(&edge.label) {
        edges.push(edge)?;
    }
    Ok(())
}

/// Reads the edges of one state. Returns those that are kept, the greatest of the state and all states that the edges
/// lead to, and the bytes after the edges.
fn read_edges(
    alloc: Global,
    ranges: Ranges,
    state: u32,
    bytes: &[u8],
) -> Result<(Vec<ReadEdge>, u32, &[u8]), PartRefusal>
    requires { ranges.states ≤ 65535 }
    ensures { Gives (λ x. (map edge_in x.0.items, x.1, lex x.2.now)) result
        (kept_edges_at state ranges.states ranges.propositions ranges.sets (lex bytes.now)) }
{
    let mut edges = Vec::new(alloc);
    let mut greatest = state;
    let mut rest = bytes;
    'edges: loop {
        let (token, left, after) = due_token(rest)?;
        let more = begins_edge(token, left)?;
        if !more {
            return Ok((edges, greatest, rest));
        }
        let (edge, behind) = read_edge(alloc, ranges, after)?;
        greatest = greatest.max(edge.target);
        keep(&mut edges, edge)?;
        rest = behind;
    }
}

/// Returns the bytes after the name of a state, if there is one, or else all of the bytes.
#[tactic(auto, unfolding(crate::specs::Mirrors::BodyScan::behind_name))]
fn behind_name(bytes: &[u8]) -> Result<&[u8], PartRefusal>
    ensures { Gives (λ x. lex x.now) result (behind_name (lex bytes.now)) }
{
    let (token, _, rest) = due_token(bytes)?;
    match token {
        HoaToken::String(_) => Ok(rest),
        _ => Ok(bytes),
    }
}

/// Reads a line after `State:`: a state, for which `seen` has no line, and its edges. Returns it with the bytes after
/// it.
#[tactic(auto, unfolding(crate::specs::Mirrors::BodyScan::line_at))]
fn read_line<'a>(
    alloc: Global,
    ranges: Ranges,
    seen: &[bool],
    bytes: &'a [u8],
) -> Result<(ReadState, &'a [u8]), PartRefusal>
    requires few { ranges.states ≤ 65535 }
    requires all { length seen.now ≡ ranges.states }
    ensures value { Gives (λ x. (line_in x.0, lex x.1.now)) result
        (line_at ranges.states ranges.propositions ranges.sets
        (λ n. slice_index_or seen.now n false) (lex bytes.now)) }
    ensures below { IfOk result (λ x. x.0.state < ranges.states) }
{
    let (token, left, rest) = due_token(bytes)?;
    let state = new_state(ranges.states, seen, token, left)?;
    let rest = behind_name(rest)?;
    let (sets, rest) = sets_if(alloc, ranges.sets, rest)?;
    let (edges, greatest, rest) = read_edges(alloc, ranges, state, rest)?;
    let line = ReadState {
        state,
        greatest,
        sets,
        edges,
    };
    Ok((line, rest))
}

/// Whether a line begins. Otherwise the body ends there.
#[tactic(auto, unfolding(crate::specs::Mirrors::BodyScan::begins_line))]
fn begins_line(token: HoaToken<'_>, left: usize) -> Result<bool, PartRefusal>
    ensures { Gives (λ x. x) result (begins_line (lexeme token.entry)) }
{
    match token {
        HoaToken::Header(name) => {
            if name == b"State".as_slice() {
                Ok(true)
            } else {
                Err(PartRefusal::Wrong(PartFault::Syntax(left)))
            }
        }
        HoaToken::End => Ok(false),
        _ => Err(PartRefusal::Wrong(unexpected(token, left))),
    }
}

/// Reads the body after `--BODY--`, and returns its lines in their order and the bytes after `--END--`.
pub fn read_body(
    alloc: Global,
    ranges: Ranges,
    bytes: &[u8],
) -> Result<(Vec<ReadState>, &[u8]), PartRefusal>
    requires { ranges.states ≤ 65535 }
    ensures { Gives (λ x. (map line_in x.0.items, lex x.1.now)) result
        (body_at ranges.states ranges.propositions ranges.sets (lex bytes.now)) }
{
    let mut lines = Vec::new(alloc);
    let mut seen = vec![in alloc; false; ranges.states as usize]?;
    let mut rest = bytes;
    'lines: loop {
        let (token, left, after) = due_token(rest)?;
        let more = begins_line(token, left)?;
        if !more {
            return Ok((lines, after));
        }
        let (line, behind) = read_line(alloc, ranges, &seen, after)?;
        seen[line.state as usize] = true;
        lines.push(line)?;
        rest = behind;
    }
}
