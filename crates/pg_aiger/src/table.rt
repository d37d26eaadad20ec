//! The gates of a table that has a place for each state and input letter: state by state, and for each state by rising input letters.

ghost use Rattle.std.specs.Prelude.{◌≡◌, ℕ, ◌+◌, ◌*◌, ◌^◌, ◌<◌, ◌≤◌, length, IfOk, slice_index};
ghost use Rattle.pg_aiger.specs.Construction.{conjunction_of, disjunction_of, each_made, having, bit_columns};
ghost use Rattle.pg_aiger.specs.Mirrors.Drafts.{IsLiteral, HasRoom, Extends, Means};
ghost use Rattle.pg_aiger.specs.Mirrors.Tables.{is_minterm, MeanEach, column_bit, minterm_at, minterms_below};

use crate::draft::Draft;
use std::alloc::{AllocError, Global};

/// Makes the minterm of a place of the table: the state's bits, and then the input letter's. Returns its literal.
fn minterm(draft: &mut Draft, inputs: u32, latches: u32, place: u32) -> Result<u32, AllocError>
    requires variables { 1 + inputs + latches ≤ draft.old.base }
    requires few { (inputs ≤ 16) × (latches ≤ 16) }
    requires place_in { place < 2 ^ (inputs + latches) }
    requires room { HasRoom draft.old (inputs + latches) }
    ensures extends { Extends (inputs + latches) draft.old draft.new }
    ensures literal { IfOk result (λ l. IsLiteral draft.new l) }
    ensures meaning { IfOk result (λ l. Means draft.new l (is_minterm inputs latches place)) }
    ensures made { IfOk result (λ l. conjunction_of draft.old (minterm_at inputs latches place) ≡ (draft.new, l)) }
{
    let of_state = draft.matching(1, 1 + inputs, latches, place >> inputs)?;
    draft.matching(of_state, 1, inputs, place)
}

/// Makes the disjunction of the minterms of the places whose value has the bit, and returns its literal.
fn column(draft: &mut Draft, literals: &[u32], values: &[u32], bit: u32) -> Result<u32, AllocError>
    requires positive { 0 < draft.old.base }
    requires same { length literals.now ≡ length values.now }
    requires few { length literals.now < 2 ^ 32 }
    requires bit_in { bit < 32 }
    requires literals_in { (place : ℕ) → place < length literals.now
        → IsLiteral draft.old (slice_index literals.now place) }
    requires room { HasRoom draft.old (length literals.now) }
    ensures extends { Extends (length literals.now) draft.old draft.new }
    ensures literal { IfOk result (λ l. IsLiteral draft.new l) }
    ensures meaning { IfOk result (λ l. Means draft.new l (column_bit literals.now values.now bit)) }
    ensures made { IfOk result (λ l. disjunction_of draft.old (having bit values.now literals.now) ≡ (draft.new, l)) }
{
    let mut literal = 0;
    for place in 0..literals.len() {
        if (values[place] >> bit) % 2 == 1 {
            literal = draft.or(literal, literals[place])?;
        }
    }
    Ok(literal)
}

/// Makes the minterms of the first `count` places, and returns their literals.
pub(crate) fn minterms(
    alloc: Global,
    draft: &mut Draft,
    inputs: u32,
    latches: u32,
    count: u32,
) -> Result<Vec<u32>, AllocError>
    requires variables { 1 + inputs + latches ≤ draft.old.base }
    requires few { (inputs ≤ 16) × (latches ≤ 16) }
    requires count_in { count ≤ 2 ^ (inputs + latches) }
    requires room { HasRoom draft.old (count * (inputs + latches)) }
    ensures extends { Extends (count * (inputs + latches)) draft.old draft.new }
    ensures length { IfOk result (λ l. length l.items ≡ count) }
    ensures meanings { IfOk result (λ l. MeanEach draft.new (is_minterm inputs latches) l.items) }
    ensures made { IfOk result (λ l. each_made conjunction_of draft.old (minterms_below inputs latches count)
        ≡ (draft.new, l.items)) }
{
    let mut literals = Vec::new(alloc);
    for place in 0..count {
        let literal = minterm(draft, inputs, latches, place)?;
        literals.push(literal)?;
    }
    Ok(literals)
}

/// For each of the first `width` bits of the values, the low bit first, makes the disjunction of the minterms of the places whose value
/// has the bit. Returns their literals.
pub(crate) fn columns(
    alloc: Global,
    draft: &mut Draft,
    literals: &[u32],
    values: &[u32],
    width: u32,
) -> Result<Vec<u32>, AllocError>
    requires positive { 0 < draft.old.base }
    requires same { length literals.now ≡ length values.now }
    requires few { length literals.now < 2 ^ 32 }
    requires width_in { width ≤ 16 }
    requires literals_in { (place : ℕ) → place < length literals.now
        → IsLiteral draft.old (slice_index literals.now place) }
    requires room { HasRoom draft.old (width * length literals.now) }
    ensures extends { Extends (width * length literals.now) draft.old draft.new }
    ensures length { IfOk result (λ l. length l.items ≡ width) }
    ensures meanings { IfOk result (λ l. MeanEach draft.new (column_bit literals.now values.now) l.items) }
    ensures made { IfOk result (λ l. each_made disjunction_of draft.old (bit_columns width values.now literals.now)
        ≡ (draft.new, l.items)) }
{
    let mut made = Vec::new(alloc);
    for bit in 0..width {
        let literal = column(draft, literals, values, bit)?;
        made.push(literal)?;
    }
    Ok(made)
}
