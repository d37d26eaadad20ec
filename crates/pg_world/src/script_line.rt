//! The lines of a script.

ghost use Rattle.std.specs.Prelude.{◌≡◌, Option, option_map};
ghost use Rattle.pg_text.specs.Mirrors.Steps.{Reads, Gives};
ghost use Rattle.pg_world.specs.Mirrors.ScriptScan.{one_at, two_at, line_at, next_line_at, cut_at};

use pg_text::reading::{Refusal, end, natural, numbers, semicolon, unexpected, word};
use pg_text::tokens::TokenFault;
use std::alloc::Global;

/// A line of the text, which names a vertex by its identifier.
#[derive(Clone, Copy)]
pub(crate) enum ScriptLine {
    Lift(u32, u32),
    Deliver(u32, u32),
    Restart(u32),
    Central(u32),
}

/// Reads a number and a semicolon.
#[tactic(auto, unfolding(crate::specs::Mirrors::ScriptScan::one_at))]
fn one(bytes: &[u8]) -> Result<(u32, &[u8]), TokenFault>
    ensures { Reads (λ x. (x.0, x.1.now)) result (one_at bytes.now) }
{
    let (number, rest) = natural(bytes)?;
    let rest = semicolon(rest)?;
    Ok((number, rest))
}

/// Reads two numbers and a semicolon.
#[tactic(auto, unfolding(crate::specs::Mirrors::ScriptScan::two_at))]
fn two(bytes: &[u8]) -> Result<((u32, u32), &[u8]), TokenFault>
    ensures { Reads (λ x. (x.0, x.1.now)) result (two_at bytes.now) }
{
    let (first, rest) = natural(bytes)?;
    let (second, rest) = one(rest)?;
    Ok(((first, second), rest))
}

/// Reads the line whose word was read. `front` begins with that word, and `rest` is what follows it.
#[tactic(auto, unfolding(crate::specs::Mirrors::ScriptScan::line_at))]
fn line<'a>(front: &[u8], name: &[u8], rest: &'a [u8]) -> Result<(ScriptLine, &'a [u8]), TokenFault>
    ensures { Reads (λ x. (x.0, x.1.now)) result (line_at front.now name.now rest.now) }
{
    if name == b"lift".as_slice() {
        let ((worker, identifier), rest) = two(rest)?;
        Ok((ScriptLine::Lift(worker, identifier), rest))
    } else if name == b"deliver".as_slice() {
        let ((replica, number), rest) = two(rest)?;
        Ok((ScriptLine::Deliver(replica, number), rest))
    } else if name == b"restart".as_slice() {
        let (worker, rest) = one(rest)?;
        Ok((ScriptLine::Restart(worker), rest))
    } else if name == b"central".as_slice() {
        let (identifier, rest) = one(rest)?;
        Ok((ScriptLine::Central(identifier), rest))
    } else {
        Err(unexpected(front))
    }
}

/// Reads a line, or returns None at the end of the text.
#[tactic(auto, unfolding(crate::specs::Mirrors::ScriptScan::next_line_at))]
pub(crate) fn next_line(bytes: &[u8]) -> Result<(Option<ScriptLine>, &[u8]), TokenFault>
    ensures { Reads (λ x. (x.0, x.1.now)) result (next_line_at bytes.now) }
{
    match word(bytes) {
        Ok((name, rest)) => {
            let (line, rest) = line(bytes, name, rest)?;
            Ok((Some(line), rest))
        }
        Err(fault) => match end(bytes) {
            Ok(_) => Ok((None, bytes)),
            Err(_) => Err(fault),
        },
    }
}

/// Reads the numbers in the line of the cut, if there is one.
#[tactic(auto, unfolding(crate::specs::Mirrors::ScriptScan::cut_at))]
pub(crate) fn cut_numbers(alloc: Global, bytes: &[u8]) -> Result<(Option<Vec<u32>>, &[u8]), Refusal>
    ensures { Gives (λ x. (option_map (λ list. list.items) x.0, x.1.now)) result (cut_at bytes.now) }
{
    match word(bytes) {
        Ok((name, rest)) if name == b"cut".as_slice() => {
            let mut list = Vec::new(alloc);
            let rest = numbers(&mut list, rest)?;
            let rest = semicolon(rest)?;
            Ok((Some(list), rest))
        }
        _ => Ok((None, bytes)),
    }
}
