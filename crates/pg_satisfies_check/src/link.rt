//! What is known of the steps of a lasso.

ghost use Rattle.std.specs.Prelude.{◌≡◌, ◌<◌, Bool, false, Some, length, replicate, slice_index_or, IfOk, IfSome};
ghost use Rattle.std.specs.Bool.{OnTrue};
ghost use Rattle.pg_aiger.specs.Runs.{value, HaveBits};
ghost use Rattle.pg_aiger_netlist.specs.Steps.{spelt};
ghost use Rattle.pg_means_look.specs.Mirrors.Tables.{row_at};
ghost use Rattle.pg_means_look.specs.Mirrors.Places.{behind};
ghost use Rattle.pg_satisfies_check.specs.Mirrors.Known.{Learns};
ghost use Rattle.pg_satisfies_check.specs.Mirrors.Lassos.{AreTaken, IsStepWith, IsLink, AreLinked};

use crate::cube::KnownRow;
use crate::known::{known_at, note, pass_each, says_no_more};
use crate::rows::{blank, spoken};
use crate::system::CircuitPart;
use pg_aiger::Latch;
use std::alloc::{AllocError, Global};

/// Returns the value at the place of a letter, or `None` past its end.
fn bit_of(letter: &[bool], place: usize) -> Option<bool>
    ensures { (b : Bool) → result ≡ Some b → (place < length letter.now) × (slice_index_or letter.now place false ≡ b) }
{
    if place < letter.len() {
        Some(letter[place])
    } else {
        None
    }
}

/// Notes the value of the literal, if there is one. `false` says that it is known to have the other one.
fn note_value(row: &mut [Option<bool>], literal: u32, known: Option<bool>) -> bool
    ensures { Learns (λ u. (b : Bool) → known ≡ Some b → value u literal ≡ b) row.old result row.new }
{
    match known {
        Some(is) => note(row, literal, is),
        None => true,
    }
}

/// Notes that the inputs have the values of the letter. `false` says that no step has them.
fn note_letter(row: &mut [Option<bool>], inputs: &[u32], letter: &[bool]) -> bool
    ensures { Learns (λ u. HaveBits u inputs.now (spelt letter.now)) row.old result row.new }
{
    for (place, literal) in inputs.iter().enumerate() {
        if !note_value(row, *literal, bit_of(letter, place)) {
            return false;
        }
    }
    true
}

/// Notes the first values as those of the latches, as far as they are known. `false` says that no step has them.
fn note_latches(row: &mut [Option<bool>], latches: &[Latch], values: &[Option<bool>]) -> bool
    ensures { Learns (λ u. AreTaken latches.now values.now u) row.old result row.new }
{
    for (place, latch) in latches.iter().enumerate() {
        if !note_value(row, latch.literal, known_at(values, place)) {
            return false;
        }
    }
    true
}

/// Notes what is so in each step with these inputs in which the latches have the first values. `false` says that there is no such step.
fn fill_step(
    row: &mut [Option<bool>],
    system: &CircuitPart,
    inputs: &[u32],
    letter: &[bool],
    values: &[Option<bool>],
) -> bool
    ensures { Learns (IsStepWith system.now inputs.now letter.now values.now) row.old result row.new }
{
    if !note(row, 0, false) {
        return false;
    }
    if !note_letter(row, inputs, letter) {
        return false;
    }
    if !note_latches(row, &system.latches, values) {
        return false;
    }
    pass_each(row, &system.gates)
}

/// Returns what is known of the system's literals in each step with these inputs in which the latches have the first values, or `None` if
/// there is no such step.
fn values_after(
    alloc: Global,
    system: &CircuitPart,
    variables: usize,
    inputs: &[u32],
    letter: &[bool],
    values: &[Option<bool>],
) -> Result<Option<KnownRow>, AllocError>
    ensures { IfOk result (λ o. IfSome o (λ row. IsLink system.now inputs.now letter.now values.now row.items)) }
{
    let mut row = blank(alloc, variables)?;
    if !fill_step(&mut row, system, inputs, letter, values) {
        return Ok(None);
    }
    let seen = spoken(alloc, system, &row)?;
    Ok(Some(seen))
}

/// Whether the row says no more than what is known of each step with these inputs in which the latches have the first values.
fn is_link(
    alloc: Global,
    system: &CircuitPart,
    variables: usize,
    inputs: &[u32],
    letter: &[bool],
    values: &[Option<bool>],
    row: &[Option<bool>],
) -> Result<bool, AllocError>
    ensures { IfOk result (λ yes. OnTrue yes (IsLink system.now inputs.now letter.now values.now row.now)) }
{
    match values_after(alloc, system, variables, inputs, letter, values)? {
        Some(seen) => Ok(says_no_more(row, &seen)),
        None => Ok(false),
    }
}

/// Returns the values of latches that are all 0.
fn all_off(alloc: Global, count: usize) -> Result<KnownRow, AllocError>
    ensures { IfOk result (λ row. row.items ≡ replicate count (Some false)) }
{
    vec![in alloc; Some(false); count]
}

/// Returns a row for each letter, or `None` if some step can't be.
pub(crate) fn rows_on(
    alloc: Global,
    system: &CircuitPart,
    variables: usize,
    inputs: &[u32],
    letters: &[Vec<bool>],
) -> Result<Option<Vec<KnownRow>>, AllocError> {
    let mut rows: Vec<KnownRow> = Vec::new(alloc);
    let mut values = all_off(alloc, system.latches.len())?;
    for letter in letters {
        let Some(row) = values_after(alloc, system, variables, inputs, letter, &values)? else {
            return Ok(None);
        };
        values = Vec::from_slice(alloc, &row)?;
        rows.push(row)?;
    }
    Ok(Some(rows))
}

/// Returns the letter at the place; past the last one, an empty one.
fn letter_at(letters: &[Vec<bool>], place: usize) -> &[bool]
    ensures { result.now ≡ row_at letters.now place }
{
    match letters.get(place) {
        Some(letter) => letter.as_slice(),
        None => &[],
    }
}

/// Returns the row at the place; past the last one, an empty one.
fn row_at(rows: &[KnownRow], place: usize) -> &[Option<bool>]
    ensures { result.now ≡ row_at rows.now place }
{
    match rows.get(place) {
        Some(row) => row.as_slice(),
        None => &[],
    }
}

/// Returns the place after a place of a lasso: after the last one comes `back`.
fn behind(count: usize, back: usize, place: usize) -> usize
    requires { place < count }
    ensures { result ≡ behind count back place }
{
    if place + 1 == count { back } else { place + 1 }
}

/// Whether each run under the lasso of these letters, which repeats those from `back` on for ever, is as the rows say, place by place.
pub(crate) fn are_linked(
    alloc: Global,
    system: &CircuitPart,
    variables: usize,
    inputs: &[u32],
    letters: &[Vec<bool>],
    rows: &[KnownRow],
    back: usize,
) -> Result<bool, AllocError>
    ensures { IfOk result (λ yes. OnTrue yes (AreLinked system.now inputs.now letters.now rows.now back)) }
{
    let off = all_off(alloc, system.latches.len())?;
    let letter = letter_at(letters, 0);
    if !is_link(
        alloc,
        system,
        variables,
        inputs,
        letter,
        &off,
        row_at(rows, 0),
    )? {
        return Ok(false);
    }
    for place in 0..rows.len() {
        let next = behind(rows.len(), back, place);
        let letter = letter_at(letters, next);
        let values = row_at(rows, place);
        let row = row_at(rows, next);
        if !is_link(alloc, system, variables, inputs, letter, values, row)? {
            return Ok(false);
        }
    }
    Ok(true)
}
