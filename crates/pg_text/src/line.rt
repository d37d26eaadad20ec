//! The lines of a game text.

ghost use Rattle.std.specs.Prelude.{◌≡◌, Ok, IfSome, IsTrue, option_copied};
ghost use Rattle.pg_arena.specs.Lines.{counted};
ghost use Rattle.pg_list_lemmas.specs.Rising.{rising};
ghost use Rattle.pg_text.specs.Mirrors.Steps.{Reads, Gives, item, stop};
ghost use Rattle.pg_text.specs.Mirrors.GameScan.{line_seen, item_seen, owner_at, ending_at, successors_at, counted_line_at, counted_step};
ghost use Rattle.pg_text.specs.Mirrors.GameScan.{counted_item_at, body_at};
ghost use Rattle.pg_text.specs.Mirrors.Parts.{further_at};

use crate::reading::{Refusal, clause, further, natural, semicolon, string, unexpected};
use crate::tokens::{TokenFault, after_byte, after_first, after_space};
use pg_arena::Player;
use std::alloc::AllocError;

/// A line as it is in the text, without its successors.
#[derive(Clone, Copy)]
pub(crate) struct TextLine<'a> {
    pub(crate) identifier: u32,
    pub(crate) priority: u32,
    pub(crate) owner: Player,
    pub(crate) name: Option<&'a [u8]>,
}

/// Reads the player at the start, by its number.
#[tactic(auto, unfolding(crate::specs::Mirrors::GameScan::owner_at))]
#[inline(always)]
pub(crate) fn player(bytes: &[u8]) -> Result<(Player, &[u8]), TokenFault>
    ensures { Reads (λ x. (x.0, x.1.now)) result (owner_at bytes.now) }
{
    match natural(bytes)? {
        (0, rest) => Ok((Player::Even, rest)),
        (1, rest) => Ok((Player::Odd, rest)),
        _ => Err(unexpected(bytes)),
    }
}

/// Reads the name after the successors, if there is one, and the semicolon.
fn ending(bytes: &[u8]) -> Result<(Option<&[u8]>, &[u8]), TokenFault>
    ensures { Reads (λ x. (option_copied x.0, x.1.now)) result (ending_at bytes.now) }
{
    if let Some(rest) = after_byte(b';', bytes) {
        return Ok((None, rest));
    }
    let (name, rest) = string(bytes)?;
    Ok((Some(name), semicolon(rest)?))
}

/// Makes room for one more number. If there is none, it first removes repeats and then makes room for as many numbers
/// again, so that a list is seldom sorted.
#[inline(always)]
fn make_room(list: &mut Vec<u32>) -> Result<(), AllocError>
    ensures { rising list.new.items ≡ rising list.old.items }
{
    if list.len() < list.capacity() {
        return Ok(());
    }
    list.sort_unstable();
    list.dedup();
    list.reserve(list.len())
}

/// Reads one or more successors separated by commas, which replace the contents of the list. Repeats may be left out,
/// and the order may change.
#[tactic(auto, unfolding(crate::specs::Mirrors::GameScan::successors_at, crate::specs::Mirrors::Parts::numbers_at))]
#[inline(always)]
fn successors<'a>(list: &mut Vec<u32>, bytes: &'a [u8]) -> Result<&'a [u8], Refusal>
    ensures { Gives (λ rest. (rising list.new.items, rest.now)) result (successors_at bytes.now) }
{
    let (first, mut rest) = natural(bytes)?;
    list.clear();
    list.push(first)?;
    'successors: loop {
        match further(rest)? {
            Some((number, after)) => {
                make_room(list)?;
                list.push(number)?;
                rest = after;
            }
            None => return Ok(rest),
        }
    }
}

/// Reads a line after its identifier. Its successors, of which repeats count once, replace the contents of the buffer.
#[tactic(auto, unfolding(crate::specs::Mirrors::GameScan::counted_line_at))]
#[inline(always)]
fn line<'a>(
    buffer: &mut Vec<u32>,
    identifier: u32,
    bytes: &'a [u8],
) -> Result<(TextLine<'a>, &'a [u8]), Refusal>
    ensures { Gives (λ x. (counted (line_seen buffer.new.items x.0), x.1.now)) result
        (counted_line_at identifier bytes.now) }
{
    let (priority, rest) = natural(bytes)?;
    let (owner, rest) = player(rest)?;
    let rest = successors(buffer, rest)?;
    let (name, rest) = ending(rest)?;
    let line = TextLine {
        identifier,
        priority,
        owner,
        name,
    };
    Ok((line, rest))
}

/// Reads a line, however it is written, or returns None at the end of the text. The buffer then holds the line's
/// successors.
#[inline(never)]
fn any_item<'a>(
    buffer: &mut Vec<u32>,
    bytes: &'a [u8],
) -> Result<(Option<TextLine<'a>>, &'a [u8]), Refusal>
    ensures { Gives (λ x. (counted_step (item_seen buffer.new.items x.0), x.1.now)) result (counted_item_at bytes.now) }
{
    let front = after_space(bytes);
    if front.is_empty() {
        return Ok((None, front));
    }
    let (identifier, rest) = natural(front)?;
    let (line, rest) = line(buffer, identifier, rest)?;
    Ok((Some(line), rest))
}

/// Whether the successors before `bytes` end there: a token that isn't a comma comes next.
#[inline(always)]
fn is_end(bytes: &[u8]) -> bool
    ensures { IsTrue result → further_at bytes.now ≡ Ok (stop tt, bytes.now) }
{
    match after_first(b';', bytes) {
        Some(_) => true,
        None => match further(bytes) {
            Ok(None) => true,
            _ => false,
        },
    }
}

/// Reads one or more successors separated by commas with no white space before these. They replace the contents of the
/// list. If this function returns something, it is what `successors` returns. Repeats may be left out, and the order
/// may change.
#[tactic(auto, unfolding(crate::specs::Mirrors::GameScan::successors_at, crate::specs::Mirrors::Parts::numbers_at))]
#[inline(always)]
fn plain_successors<'a>(list: &mut Vec<u32>, bytes: &'a [u8]) -> Option<&'a [u8]>
    ensures { IfSome result (λ rest. successors_at bytes.now ≡ Ok (rising list.new.items, rest.now)) }
{
    let Ok((first, mut rest)) = natural(bytes) else {
        return None;
    };
    list.clear();
    let Ok(()) = list.push(first) else {
        return None;
    };
    'successors: loop {
        let Some(after) = after_first(b',', rest) else {
            if is_end(rest) {
                return Some(rest);
            }
            return None;
        };
        let Ok((number, after)) = natural(after) else {
            return None;
        };
        let Ok(()) = make_room(list) else {
            return None;
        };
        let Ok(()) = list.push(number) else {
            return None;
        };
        rest = after;
    }
}

/// Reads a line as programs print it. If both `item` and this function return a line, it is the same one.
#[inline(always)]
fn plain_line<'a>(buffer: &mut Vec<u32>, bytes: &'a [u8]) -> Option<(TextLine<'a>, &'a [u8])>
    ensures { IfSome result (λ x. counted_item_at bytes.now ≡ Ok (item (counted (line_seen buffer.new.items x.0)), x.1.now)) }
{
    let Ok((identifier, rest)) = natural(bytes) else {
        return None;
    };
    let Ok((priority, rest)) = natural(rest) else {
        return None;
    };
    let Ok((owner, rest)) = player(rest) else {
        return None;
    };
    let rest = plain_successors(buffer, rest)?;
    let line = TextLine {
        identifier,
        priority,
        owner,
        name: None,
    };
    if let Some(rest) = after_first(b';', rest) {
        return Some((line, rest));
    }
    let Ok((name, rest)) = ending(rest) else {
        return None;
    };
    Some((TextLine { name, ..line }, rest))
}

/// Reads a line, or returns None at the end of the text. The buffer then holds the line's successors.
#[inline(always)]
pub(crate) fn item<'a>(
    buffer: &mut Vec<u32>,
    bytes: &'a [u8],
) -> Result<(Option<TextLine<'a>>, &'a [u8]), Refusal>
    ensures { Gives (λ x. (counted_step (item_seen buffer.new.items x.0), x.1.now)) result (counted_item_at bytes.now) }
{
    match plain_line(buffer, bytes) {
        Some((line, rest)) => Ok((Some(line), rest)),
        None => any_item(buffer, bytes),
    }
}

/// Returns the bytes after the header and the start, each of which may be left out.
#[tactic(auto, unfolding(crate::specs::Mirrors::GameScan::body_at))]
pub(crate) fn body(bytes: &[u8]) -> Result<&[u8], TokenFault>
    ensures { Reads (λ x. x.now) result (body_at bytes.now) }
{
    let (_header, rest) = clause(b"parity", bytes)?;
    let (_start, rest) = clause(b"start", rest)?;
    Ok(rest)
}
