//! Lists of items that are spelled one after another.
ghost use Rattle.std.specs.Prelude.{◌≡◌, ◌≤◌, ℕ, ◌↔◌, IsTrue, IfOk, length, vec_capacity};
ghost use Rattle.pg_wire.specs.Mirrors.Reading.{Yields, Gives, made, skipped};
ghost use Rattle.pg_wire.specs.Mirrors.Formats.{Kind, AreItems, so_many, listed};
ghost use Rattle.pg_wire.specs.Mirrors.Ordered.{Steps};

use crate::fault::{FieldFault, ReadFault};
use crate::fields::within;
use crate::list::Items;
use std::alloc::Global;

/// A kind of item. Each item has a place, which the item before it sets.
pub trait Form {
    type Item: Drop;

    /// How the items of lists of a width are spelled, read and ordered.
    ghost kind: { ℕ → Kind Self.Item };

    /// Returns the place that the next item gets, and the bytes after this item. It takes no memory.
    fn skip(width: u32, place: u64, bytes: &[u8]) -> Result<(u64, &[u8]), FieldFault>
        ensures { Yields (λ x. (x.0, x.1.now)) result (made (kind width).next ((kind width).read place) bytes.now) };

    fn place_after_item(item: &Self::Item) -> u64
        ensures { (width : ℕ) → result ≡ (kind width).next item.now };

    fn fits(width: u32, place: u64, item: &Self::Item) -> bool
        ensures { IsTrue result ↔ ((kind width).Stands place item.now × (kind width).IsItem item.now) };

    ghost steps: { (width : ℕ) → Steps (kind width).Stands (kind width).Precedes (kind width).next };
}

/// A kind of item that can be read without taking memory.
pub trait FlatForm: Form {
    fn read(width: u32, place: u64, bytes: &[u8]) -> Result<(Self::Item, &[u8]), FieldFault>
        ensures read { Yields (λ x. (x.0, x.1.now)) result ((Self.kind width).read place bytes.now) }
        ensures less { IfOk result (λ x. length x.1.now ≤ length bytes.now) };
}

/// Reads `count` items. It reserves memory for all of them at once: the caller has found that the bytes spell that many.
fn items<F: FlatForm>(
    alloc: Global,
    width: u32,
    count: u32,
    place: u64,
    bytes: &[u8],
) -> Result<(Vec<F::Item>, &[u8]), ReadFault>
    ensures read { Gives (λ x. (x.0.items, x.1.now)) result ((so_many (F.kind width) count place).read bytes.now) }
    ensures less { IfOk result (λ x. length x.1.now ≤ length bytes.now) }
    ensures memory { IfOk result (λ x. vec_capacity x.0 ≡ count) }
{
    let mut items = Vec::with_capacity(alloc, count as usize)?;
    let mut rest = bytes;
    let mut at = place;
    for _ in 0..count {
        let (item, after) = F::read(width, at, rest)?;
        at = F::place_after_item(&item);
        items.push_reserved(item);
        rest = after;
    }
    Ok((items, rest))
}

/// Returns the bytes after `count` items. It takes no memory.
#[inline(always)]
pub fn skip_items<F: Form>(
    width: u32,
    count: u32,
    place: u64,
    bytes: &[u8],
) -> Result<&[u8], FieldFault>
    ensures { Yields (λ x. x.now) result (skipped (so_many (F.kind width) count place).read bytes.now) }
{
    let mut rest = bytes;
    let mut at = place;
    for _ in 0..count {
        let (next, after) = F::skip(width, at, rest)?;
        at = next;
        rest = after;
    }
    Ok(rest)
}

/// Returns the bytes after a count, from `least` on and below `high`, and that many items. It takes no memory.
#[tactic(auto, unfolding(crate::specs::Mirrors::Reading::counted_at))]
#[inline(always)]
pub fn skip_counted<F: Form>(
    width: u32,
    least: u64,
    high: u64,
    place: u64,
    bytes: &[u8],
) -> Result<&[u8], FieldFault>
    ensures { Yields (λ x. x.now) result (skipped (listed (F.kind width) least high place).read bytes.now) }
{
    let (count, rest) = within(least, high, bytes)?;
    skip_items::<F>(width, count, place, rest)
}

/// Reads a count, from `least` on and below `high`, and then that many items.
#[tactic(auto, unfolding(crate::specs::Mirrors::Reading::counted_at))]
pub fn counted<F: FlatForm>(
    alloc: Global,
    width: u32,
    least: u64,
    high: u64,
    place: u64,
    bytes: &[u8],
) -> Result<(Items<F::Item>, &[u8]), ReadFault>
    ensures read { Gives (λ x. (x.0, x.1.now)) result ((listed (F.kind width) least high place).read bytes.now) }
    ensures less { IfOk result (λ x. length x.1.now ≤ length bytes.now) }
{
    let (count, rest) = within(least, high, bytes)?;
    let (items, rest) = items::<F>(alloc, width, count, place, rest)?;
    Ok((Items::new(items), rest))
}

/// Whether each item is in its ranges, the first one fits at the place, and each other one fits after the one before it.
pub fn are_ordered<F: Form>(width: u32, place: u64, items: &[F::Item]) -> bool
    ensures { IsTrue result ↔ AreItems (F.kind width) place items.now }
{
    let mut at = place;
    for item in items {
        if !F::fits(width, at, item) {
            return false;
        }
        at = F::place_after_item(item);
    }
    true
}
