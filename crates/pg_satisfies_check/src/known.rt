//! What is known of the values of a circuit's variables in a step.

ghost use Rattle.std.specs.Prelude.{◌≡◌, ℕ, Bool, Some};
ghost use Rattle.std.specs.Bool.{OnTrue};
ghost use Rattle.pg_aiger.specs.Runs.{value, Satisfies};
ghost use Rattle.pg_satisfies_check.specs.Mirrors.Known.{known_at, literal_in, Learns, Meets, Follow};
ghost use Rattle.pg_satisfies_check.specs.Certificates.{AreBits};

use crate::system::Bit;
use pg_aiger::{Gate, Latch};

/// Returns the value at a place, if it is known.
pub(crate) fn known_at(row: &[Option<bool>], place: usize) -> Option<bool>
    ensures { result ≡ known_at row.now place }
{
    row.get(place).copied().unwrap_or(None)
}

/// Returns the value of a literal, if it is known. The row says of each variable what is known.
pub fn value_of(row: &[Option<bool>], literal: u32) -> Option<bool>
    ensures { result ≡ literal_in row.now literal }
{
    match known_at(row, (literal / 2) as usize) {
        Some(bit) => Some(if literal % 2 == 1 { !bit } else { bit }),
        None => None,
    }
}

/// Notes that the value at the place is this one. `false` says that it is known to be the other one.
pub(crate) fn note_at(row: &mut [Option<bool>], place: usize, is: bool) -> bool
    ensures { Learns (λ u. u place ≡ is) row.old result row.new }
{
    if place >= row.len() {
        return true;
    }
    match row[place] {
        Some(known) => known == is,
        None => {
            row[place] = Some(is);
            true
        }
    }
}

/// Notes that the literal has this value. `false` says that it is known to have the other one.
pub(crate) fn note(row: &mut [Option<bool>], literal: u32, is: bool) -> bool
    ensures { Learns (λ u. value u literal ≡ is) row.old result row.new }
{
    note_at(row, (literal / 2) as usize, is != (literal % 2 == 1))
}

/// Whether the literal is known to have this value.
pub(crate) fn is_known(row: &[Option<bool>], literal: u32, is: bool) -> bool
    ensures { OnTrue result (literal_in row.now literal ≡ Some is) }
{
    match value_of(row, literal) {
        Some(bit) => bit == is,
        None => false,
    }
}

/// Whether the value at the place is known to be this one.
fn is_known_at(row: &[Option<bool>], place: usize, is: bool) -> bool
    ensures { OnTrue result (known_at row.now place ≡ Some is) }
{
    match known_at(row, place) {
        Some(bit) => bit == is,
        None => false,
    }
}

/// Notes the values of two literals.
fn note_both(row: &mut [Option<bool>], first: u32, second: u32, is: bool) -> bool
    ensures { Learns (λ u. (value u first ≡ is) × (value u second ≡ is)) row.old result row.new }
{
    if !note(row, first, is) {
        return false;
    }
    note(row, second, is)
}

/// Notes what a gate says of its literals. `false` says that they can't have the values that are known.
pub(crate) fn pass(row: &mut [Option<bool>], gate: Gate) -> bool
    ensures { Learns (λ u. Meets u gate) row.old result row.new }
{
    if is_known(row, gate.rhs0, false) {
        return note(row, gate.lhs, false);
    }
    if is_known(row, gate.rhs1, false) {
        return note(row, gate.lhs, false);
    }
    if is_known(row, gate.lhs, true) {
        return note_both(row, gate.rhs0, gate.rhs1, true);
    }
    if is_known(row, gate.rhs0, true) {
        return pass_known(row, gate.lhs, gate.rhs1);
    }
    if is_known(row, gate.lhs, false) && is_known(row, gate.rhs1, true) {
        return note(row, gate.rhs0, false);
    }
    true
}

/// Notes that two literals have the same value.
fn pass_known(row: &mut [Option<bool>], first: u32, second: u32) -> bool
    ensures { Learns (λ u. value u first ≡ value u second) row.old result row.new }
{
    if let Some(is) = value_of(row, first) {
        return note(row, second, is);
    }
    if let Some(is) = value_of(row, second) {
        return note(row, first, is);
    }
    true
}

/// Notes what the gates say, one after another. `false` says that no step has the values that are known.
pub(crate) fn pass_each(row: &mut [Option<bool>], gates: &[Gate]) -> bool
    ensures { Learns (λ u. Satisfies u gates.now) row.old result row.new }
{
    for gate in gates {
        if !pass(row, *gate) {
            return false;
        }
    }
    true
}

/// Notes the values of latches. `false` says that no step has them.
pub(crate) fn note_bits(row: &mut [Option<bool>], latches: &[Latch], bits: &[Bit]) -> bool
    ensures { Learns (λ u. AreBits latches.now u bits.now) row.old result row.new }
{
    for bit in bits {
        if bit.latch < latches.len() && !note(row, latches[bit.latch].literal, bit.value) {
            return false;
        }
    }
    true
}

/// Whether the first values of the row, which are those of the latches in the next step, are known to be these ones.
pub(crate) fn are_next(row: &[Option<bool>], latches: usize, bits: &[Bit]) -> bool
    ensures { OnTrue result (Follow latches row.now bits.now) }
{
    for bit in bits {
        if bit.latch >= latches || !is_known_at(row, bit.latch, bit.value) {
            return false;
        }
    }
    true
}

/// Whether each value that the first row says is known to the second one too.
pub(crate) fn says_no_more(few: &[Option<bool>], many: &[Option<bool>]) -> bool
    ensures { OnTrue result ((x : ℕ) (b : Bool) → known_at few.now x ≡ Some b → known_at many.now x ≡ Some b) }
{
    for (place, value) in few.iter().enumerate() {
        if let Some(bit) = value
            && !is_known_at(many, place, *bit)
        {
            return false;
        }
    }
    true
}
