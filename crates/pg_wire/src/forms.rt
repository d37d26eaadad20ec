//! The kinds of lists in frames.
ghost use Rattle.std.specs.Prelude.{◌^◌, ◌<◌, ◌↔◌, IsTrue, IfOk, length};
ghost use Rattle.pg_wire.specs.Mirrors.Reading.{Yields, both, within_at, byte_at};
ghost use Rattle.pg_wire.specs.Mirrors.Formats.{line_head, counted_as};
ghost use Rattle.pg_wire.specs.Well.{IsComponents, ArePlaces};

use crate::fault::FieldFault;
use crate::fields::{WORDS, bound, byte, pair, within};
use crate::form::{FlatForm, Form, are_ordered, skip_counted, skip_items};
use crate::frame::{LineHead, SparseValue, Value, VertexLine};

/// The successors of a vertex, in rising order.
pub struct SuccessorForm;

impl Form for SuccessorForm {
    ghost use Rattle.pg_wire.specs.Mirrors.Ordered.{rising};
    ghost use Rattle.pg_wire.specs.Mirrors.Formats.{successors};

    type Item = u32;

    ghost kind = { λ _. successors };

    #[inline(always)]
    fn skip(_: u32, place: u64, bytes: &[u8]) -> Result<(u64, &[u8]), FieldFault> {
        let (successor, rest) = within(place, WORDS, bytes)?;
        Ok((successor as u64 + 1, rest))
    }

    fn place_after_item(successor: &u32) -> u64 {
        *successor as u64 + 1
    }

    fn fits(_: u32, place: u64, item: &u32) -> bool {
        place <= *item as u64
    }

    ghost steps = { λ _. rising (λ n. n) };
}

/// Priorities in falling order, each with its bound.
pub struct BoundForm;

impl Form for BoundForm {
    ghost use Rattle.pg_wire.specs.Mirrors.Ordered.{falling};
    ghost use Rattle.pg_wire.specs.Mirrors.Formats.{bounds};

    type Item = (u32, u32);

    ghost kind = { λ _. bounds };

    fn skip(_: u32, place: u64, bytes: &[u8]) -> Result<(u64, &[u8]), FieldFault> {
        let ((priority, _), rest) = bound(place, bytes)?;
        Ok((priority as u64, rest))
    }

    fn place_after_item(bound: &(u32, u32)) -> u64 {
        bound.0 as u64
    }

    fn fits(_: u32, place: u64, item: &(u32, u32)) -> bool {
        let (priority, bound) = *item;
        (priority as u64) < place && priority % 2 == 1 && priority <= 65_535 && bound >= 1
    }

    ghost steps = { λ _. falling (λ p. p.0) };
}

impl FlatForm for BoundForm {
    fn read(_: u32, place: u64, bytes: &[u8]) -> Result<((u32, u32), &[u8]), FieldFault> {
        bound(place, bytes)
    }
}

/// The components of a measure.
pub struct ComponentForm;

impl Form for ComponentForm {
    ghost use Rattle.pg_wire.specs.Mirrors.Ordered.{in_any_order};
    ghost use Rattle.pg_wire.specs.Mirrors.Formats.{components};

    type Item = u32;

    ghost kind = { λ _. components };

    #[inline(always)]
    fn skip(_: u32, _: u64, bytes: &[u8]) -> Result<(u64, &[u8]), FieldFault> {
        let (_, rest) = within(0, WORDS, bytes)?;
        Ok((0, rest))
    }

    fn place_after_item(_: &u32) -> u64 {
        0
    }

    fn fits(_: u32, _: u64, item: &u32) -> bool {
        let _component = *item;
        true
    }

    ghost steps = { λ _. in_any_order };
}

/// Places below the width in rising order, each with its number.
pub struct PlaceForm;

impl Form for PlaceForm {
    ghost use Rattle.pg_wire.specs.Mirrors.Ordered.{rising};
    ghost use Rattle.pg_wire.specs.Mirrors.Formats.{places};

    type Item = (u32, u32);

    ghost kind = { places };

    #[inline(always)]
    fn skip(width: u32, place: u64, bytes: &[u8]) -> Result<(u64, &[u8]), FieldFault> {
        let ((at, _), rest) = pair(width, place, bytes)?;
        Ok((at as u64 + 1, rest))
    }

    fn place_after_item(place: &(u32, u32)) -> u64 {
        place.0 as u64 + 1
    }

    fn fits(width: u32, place: u64, item: &(u32, u32)) -> bool {
        let (at, number) = *item;
        place <= at as u64 && at < width && number >= 1
    }

    ghost steps = { λ _. rising (λ p. p.0) };
}

impl FlatForm for PlaceForm {
    fn read(width: u32, place: u64, bytes: &[u8]) -> Result<((u32, u32), &[u8]), FieldFault> {
        pair(width, place, bytes)
    }
}

/// Reads the head of a line, whose vertex is at least `place`, and the number of its successors.
#[tactic(auto, unfolding(crate::specs::Mirrors::Formats::line_head))]
#[inline(always)]
pub fn head(place: u64, bytes: &[u8]) -> Result<(LineHead, u32, &[u8]), FieldFault>
    ensures read { Yields (λ x. (counted_as x.0 x.1, x.2.now)) result ((line_head place).read bytes.now) }
    ensures less { IfOk result (λ x. length x.2.now < length bytes.now) }
{
    let (vertex, rest) = within(place, WORDS, bytes)?;
    let (priority, rest) = within(0, 65_537, rest)?;
    let (owner, rest) = byte(2, rest)?;
    let (count, rest) = within(1, WORDS, rest)?;
    let head = LineHead {
        vertex,
        priority,
        owner,
    };
    Ok((head, count, rest))
}

/// The lines of vertices, by rising vertex.
pub struct LineForm;

impl Form for LineForm {
    ghost use Rattle.pg_wire.specs.Mirrors.Ordered.{rising};
    ghost use Rattle.pg_wire.specs.Mirrors.Formats.{lines};

    type Item = VertexLine;

    ghost kind = { λ _. lines };

    #[tactic(auto, using(crate::proofs::Skip::passed, crate::proofs::Skip::refused), unfolding(crate::specs::Mirrors::Formats::line))]
    #[inline(always)]
    fn skip(_: u32, place: u64, bytes: &[u8]) -> Result<(u64, &[u8]), FieldFault> {
        let (head, count, rest) = head(place, bytes)?;
        let rest = skip_items::<SuccessorForm>(0, count, 0, rest)?;
        Ok((head.vertex as u64 + 1, rest))
    }

    fn place_after_item(line: &VertexLine) -> u64 {
        line.vertex as u64 + 1
    }

    fn fits(_: u32, place: u64, item: &VertexLine) -> bool {
        let successors = item.successors.as_slice();
        place <= item.vertex as u64
            && item.priority <= 65_536
            && item.owner <= 1
            && !successors.is_empty()
            && (successors.len() as u64) < WORDS
            && are_ordered::<SuccessorForm>(0, 0, successors)
    }

    ghost steps = { λ _. rising (λ l. l.vertex) };
}

/// Reads the vertex of a measure, which is at least `place`, and the tag after it: 0 if a list follows, 1 for top.
#[inline(always)]
pub fn value_head(place: u64, bytes: &[u8]) -> Result<(u32, u8, &[u8]), FieldFault>
    ensures read { Yields (λ x. ((x.0, x.1), x.2.now)) result (both (within_at place (2 ^ 32)) (λ _. byte_at 2) bytes.now) }
    ensures less { IfOk result (λ x. length x.2.now < length bytes.now) }
{
    let (vertex, rest) = within(place, WORDS, bytes)?;
    let (tag, rest) = byte(2, rest)?;
    Ok((vertex, tag, rest))
}

/// Whether a list has one number for each place of the width.
fn are_components(width: u32, numbers: &[u32]) -> bool
    ensures { IsTrue result ↔ IsComponents width numbers.now }
{
    numbers.len() == width as usize && are_ordered::<ComponentForm>(width, 0, numbers)
}

/// The measures of vertices, by rising vertex.
pub struct ValueForm;

impl Form for ValueForm {
    ghost use Rattle.pg_wire.specs.Mirrors.Ordered.{rising};
    ghost use Rattle.pg_wire.specs.Mirrors.Formats.{values};

    type Item = Value;

    ghost kind = { values };

    #[tactic(auto, using(crate::proofs::Skip::passed, crate::proofs::Skip::refused), unfolding(crate::specs::Mirrors::Formats::value, crate::specs::Mirrors::Reading::headed_at))]
    #[inline(always)]
    fn skip(width: u32, place: u64, bytes: &[u8]) -> Result<(u64, &[u8]), FieldFault> {
        let (vertex, tag, rest) = value_head(place, bytes)?;
        if tag != 0 {
            return Ok((vertex as u64 + 1, rest));
        }
        let rest = skip_items::<ComponentForm>(0, width, 0, rest)?;
        Ok((vertex as u64 + 1, rest))
    }

    fn place_after_item(value: &Value) -> u64 {
        value.vertex as u64 + 1
    }

    fn fits(width: u32, place: u64, item: &Value) -> bool {
        let fits = match &item.list {
            None => true,
            Some(list) => are_components(width, list.as_slice()),
        };
        place <= item.vertex as u64 && fits
    }

    ghost steps = { λ _. rising (λ v. v.vertex) };
}

/// Whether the places rise and are below the width.
fn are_places(width: u32, pairs: &[(u32, u32)]) -> bool
    ensures { IsTrue result ↔ ArePlaces width pairs.now }
{
    pairs.len() <= width as usize && are_ordered::<PlaceForm>(width, 0, pairs)
}

/// The measures of vertices, by rising vertex, given by the components that aren't 0.
pub struct SparseValueForm;

impl Form for SparseValueForm {
    ghost use Rattle.pg_wire.specs.Mirrors.Ordered.{rising};
    ghost use Rattle.pg_wire.specs.Mirrors.Formats.{sparse_values};

    type Item = SparseValue;

    ghost kind = { sparse_values };

    #[tactic(auto, using(crate::proofs::Skip::passed, crate::proofs::Skip::refused), unfolding(crate::specs::Mirrors::Formats::sparse_value, crate::specs::Mirrors::Reading::headed_at))]
    #[inline(always)]
    fn skip(width: u32, place: u64, bytes: &[u8]) -> Result<(u64, &[u8]), FieldFault> {
        let (vertex, tag, rest) = value_head(place, bytes)?;
        if tag != 0 {
            return Ok((vertex as u64 + 1, rest));
        }
        let rest = skip_counted::<PlaceForm>(width, 0, width as u64 + 1, 0, rest)?;
        Ok((vertex as u64 + 1, rest))
    }

    fn place_after_item(sparse: &SparseValue) -> u64 {
        sparse.vertex as u64 + 1
    }

    fn fits(width: u32, place: u64, item: &SparseValue) -> bool {
        let fits = match &item.pairs {
            None => true,
            Some(pairs) => are_places(width, pairs.as_slice()),
        };
        place <= item.vertex as u64 && fits
    }

    ghost steps = { λ _. rising (λ v. v.vertex) };
}
