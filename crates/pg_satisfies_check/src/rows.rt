//! Makes the rows of a cube.

ghost use Rattle.std.specs.Prelude.{◌≡◌, ℕ, IfOk, OnOk, IfSome, map};
ghost use Rattle.std.specs.Bool.{OnTrue};
ghost use Rattle.pg_aiger.specs.Runs.{Valuation};
ghost use Rattle.pg_satisfies_check.specs.declared.system.CircuitPart.{CircuitPart};
ghost use Rattle.pg_satisfies_check.specs.Certificates.{AreBits, IsStep};
ghost use Rattle.pg_satisfies_check.specs.Mirrors.Known.{IsBlank, Learns, literal_in};
ghost use Rattle.pg_satisfies_check.specs.Mirrors.Steps.{Assumes, Begins, HasRow, IsSeen, NoneSeen, KeepsRows, KeepsSeen, ArePieces, circuit_of, spoken_of};

use crate::cube::KnownRow;
use crate::known::{note, note_bits, says_no_more, value_of};
use crate::propagation::{settle, wake};
use crate::system::{Bit, CircuitPart};
use std::alloc::{AllocError, Global};

/// How many rows are looked up by their hashes, to leave out equal ones.
const SLOTS: usize = 1024;

/// Chooses literals on which rows are split. Whatever it chooses, the rows are right.
pub trait Cutter {
    /// Returns a literal whose value has to be known, or `None` if enough is known of the step. The row says of each variable what is
    /// known.
    fn cut(&self, row: &[Option<bool>]) -> Option<u32>;
}

/// Returns a row of which nothing is known.
pub(crate) fn blank(alloc: Global, variables: usize) -> Result<KnownRow, AllocError>
    ensures { IfOk result (λ row. IsBlank row.items) }
{
    let mut row = Vec::new(alloc);
    for _x in 0..variables {
        row.push(None)?;
    }
    Ok(row)
}

/// Returns the places of all gates, the last one first.
fn all_places(alloc: Global, count: usize) -> Result<Vec<usize>, AllocError> {
    let mut queue = Vec::with_capacity(alloc, count)?;
    for place in (0..count).rev() {
        queue.push(place)?;
    }
    Ok(queue)
}

/// Notes what is so in each step of the system in which the latches have these values. `false` says that there is no such step.
fn fill(
    alloc: Global,
    row: &mut [Option<bool>],
    system: &CircuitPart,
    users: &[Vec<usize>],
    bits: &[Bit],
) -> Result<bool, AllocError>
    ensures { IfOk result (λ ok. Learns (λ u. IsStep (circuit_of system.now) u × AreBits system.now.latches.items u bits.now) row.old ok row.new) }
{
    if !note(row, 0, false) {
        return Ok(false);
    }
    if !note_bits(row, &system.latches, bits) {
        return Ok(false);
    }
    let queue = all_places(alloc, system.gates.len())?;
    settle(row, &system.gates, users, queue)
}

/// Returns what is known of the steps in which the latches have these values, or `None` if there are no such steps.
fn begin(
    alloc: Global,
    system: &CircuitPart,
    users: &[Vec<usize>],
    variables: usize,
    bits: &[Bit],
) -> Result<Option<KnownRow>, AllocError>
    ensures { IfOk result (Begins system.now bits.now) }
{
    let mut row = blank(alloc, variables)?;
    if !fill(alloc, &mut row, system, users, bits)? {
        return Ok(None);
    }
    Ok(Some(row))
}

/// Returns what is known where the literal has the value too, or `None` if it can't have it.
fn assume(
    alloc: Global,
    system: &CircuitPart,
    users: &[Vec<usize>],
    row: &[Option<bool>],
    literal: u32,
    is: bool,
) -> Result<Option<KnownRow>, AllocError>
    ensures { IfOk result (Assumes system.now row.now literal is) }
{
    let mut new = Vec::from_slice(alloc, row)?;
    if !note(&mut new, literal, is) {
        return Ok(None);
    }
    let mut queue = Vec::new(alloc);
    wake(&mut queue, users, literal)?;
    if !settle(&mut new, &system.gates, users, queue)? {
        return Ok(None);
    }
    Ok(Some(new))
}

/// Puts the row on the stack, if there is one.
fn put_row(stack: &mut Vec<KnownRow>, row: Option<KnownRow>) -> Result<(), AllocError>
    ensures { OnOk result (HasRow stack.old.items row stack.new.items) }
{
    match row {
        None => Ok(()),
        Some(row) => {
            stack.push(row)?;
            Ok(())
        }
    }
}

/// Returns the values of the next literals of the latches, and then those of the propositions' literals, as far as they are known.
pub(crate) fn spoken(
    alloc: Global,
    system: &CircuitPart,
    row: &[Option<bool>],
) -> Result<KnownRow, AllocError>
    ensures { IfOk result (λ values. values.items ≡ map (literal_in row.now) (spoken_of system.now)) }
{
    let mut values = Vec::new(alloc);
    'latches: for latch in &system.latches {
        values.push(value_of(row, latch.next))?;
    }
    'literals: for literal in &system.literals {
        values.push(value_of(row, *literal))?;
    }
    Ok(values)
}

/// Returns a number that is the same for equal rows.
fn hash(row: &[Option<bool>]) -> usize {
    let mut sum: usize = 0;
    for value in row {
        let digit = match value {
            None => 0,
            Some(false) => 1,
            Some(true) => 2,
        };
        sum = sum.wrapping_mul(31).wrapping_add(digit);
    }
    sum
}

/// Whether the row with this number says no more than this one.
fn serves(rows: &[KnownRow], number: usize, row: &[Option<bool>]) -> bool
    ensures { OnTrue result ((s : CircuitPart) (u : Valuation) → NoneSeen s rows.now u → ¬ IsSeen s row.now u) }
{
    if number >= rows.len() {
        return false;
    }
    says_no_more(&rows[number], row)
}

/// Appends the row, unless a row is found that says no more. `slots` has numbers of rows, by their hashes.
fn keep(rows: &mut Vec<KnownRow>, slots: &mut [usize], row: KnownRow) -> Result<(), AllocError>
    ensures { OnOk result (KeepsSeen row.items rows.old.items rows.new.items) }
{
    let slot = hash(&row) % SLOTS;
    if slot < slots.len() {
        if serves(rows, slots[slot], &row) {
            return Ok(());
        }
        slots[slot] = rows.len();
    }
    rows.push(row)?;
    Ok(())
}

/// Cuts the row in two, or keeps what it says of the system's literals.
fn cut<C: Cutter>(
    alloc: Global,
    system: &CircuitPart,
    users: &[Vec<usize>],
    cutter: &C,
    row: KnownRow,
    stack: &mut Vec<KnownRow>,
    rows: &mut Vec<KnownRow>,
    slots: &mut [usize],
) -> Result<(), AllocError>
    ensures { OnOk result (KeepsRows system.now row.items stack.old.items rows.old.items stack.new.items rows.new.items) }
{
    let Some(literal) = cutter.cut(&row) else {
        let values = spoken(alloc, system, &row)?;
        keep(rows, slots, values)?;
        return Ok(());
    };
    let yes = assume(alloc, system, users, &row, literal, true)?;
    let no = assume(alloc, system, users, &row, literal, false)?;
    put_row(stack, yes)?;
    put_row(stack, no)?;
    Ok(())
}

/// Returns rows of which one is right in each step in which the latches have these values, or `None` after `fuel` cuts.
pub(crate) fn rows_of<C: Cutter>(
    alloc: Global,
    system: &CircuitPart,
    users: &[Vec<usize>],
    variables: usize,
    cutter: &C,
    fuel: u32,
    bits: &[Bit],
) -> Result<Option<Vec<KnownRow>>, AllocError>
    ensures { IfOk result (λ o. IfSome o (λ rows. ArePieces system.now bits.now rows.items)) }
{
    let mut rows = Vec::new(alloc);
    let Some(row) = begin(alloc, system, users, variables, bits)? else {
        return Ok(Some(rows));
    };
    let mut slots = vec![in alloc; 0; SLOTS]?;
    let mut stack = Vec::new(alloc);
    stack.push(row)?;
    for _step in 0..fuel {
        let Some(next) = stack.pop() else {
            return Ok(Some(rows));
        };
        cut(
            alloc, system, users, cutter, next, &mut stack, &mut rows, &mut slots,
        )?;
    }
    Ok(None)
}
