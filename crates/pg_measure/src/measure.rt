//! Measures that own their components.

ghost use Rattle.std.specs.Prelude.{◌≡◌, ◌↔◌, ℕ, List, Some, None, length, option_map, replicate, IfOk, IsTrue};
ghost use Rattle.std.specs.Ordering.{MatchOrdering};
ghost use Rattle.pg_measure.specs.Measures.{Fits, IsLeastStep, IsBelow, zeros, measure_from, owned, IsOwned};
ghost use Rattle.pg_measure.specs.Views.{measure_in};

use crate::{Bounds, View, row};
use smallvec::SmallVec;
use std::alloc::{AllocError, Global};
use std::cmp::Ordering;
use std::marker::Model;

/// A row of up to this many numbers, its mark included, is stored in the measure itself, and a longer one in memory of its own.
const INLINE: usize = 4;

/// Top, or a list of components. In contracts `value` is the measure, and `width` the number of components that it has room for, even if
/// it is top.
#[derive(Drop)]
pub struct Measure {
    row: SmallVec<u32, INLINE>,
}

/// Returns a row of `count` equal numbers.
fn row_of(alloc: Global, number: u32, count: usize) -> Result<SmallVec<u32, INLINE>, AllocError>
    ensures { IfOk result (λ r. r.items ≡ replicate count number) }
{
    if count <= INLINE {
        return Ok(SmallVec::from_buf_and_len(alloc, [number; INLINE], count));
    }
    Ok(SmallVec::from_vec(vec![in alloc; number; count]?))
}

impl Model for Measure {
    ghost use Rattle.std.specs.Prelude.{length, ◌<◌, ◌-◌};
    ghost use Rattle.pg_measure.specs.Measures.{OwnedMeasure, owned};
    ghost use Rattle.pg_measure.specs.Mirrors.Rows.{measure_of};

    ghost Value = { OwnedMeasure };

    ghost view = { λ m. owned (measure_of m.row.items) (length m.row.items - 1) };

    ghost invariant = { λ m. 0 < length m.row.items };
}

impl Measure {
    /// Returns the least measure within the bounds, which has a zero for each of them. Fails only if memory runs out.
    pub fn zero(alloc: Global, bounds: &Bounds) -> Result<Measure, AllocError>
        ensures { IfOk result (λ m. m ≡ owned (zeros bounds.now) (length bounds.now)) }
    {
        let row = row_of(alloc, 0, bounds.pairs().len() + 1)?;
        Ok(Measure { row })
    }

    /// Returns top, with room for a component for each of the bounds. Fails only if memory runs out.
    pub fn top(alloc: Global, bounds: &Bounds) -> Result<Measure, AllocError>
        ensures { IfOk result (λ m. m ≡ owned None (length bounds.now)) }
    {
        let row = row_of(alloc, 1, bounds.pairs().len() + 1)?;
        Ok(Measure { row })
    }

    /// Returns the measure with this list of components. Fails only if memory runs out.
    pub fn from_list(alloc: Global, list: &[u32]) -> Result<Measure, AllocError>
        ensures { IfOk result (λ m. m ≡ owned (Some list.now) (length list.now)) }
    {
        let mut row = SmallVec::new(alloc);
        row.push_reserved(0);
        row.extend_from_slice(list)?;
        Ok(Measure { row })
    }

    /// Returns the components, or `None` for top.
    pub fn list(&self) -> Option<&[u32]>
        ensures value { option_map (λ r. r.now) result ≡ self.now.value }
        ensures width { IsOwned self.now }
    {
        let row = self.row.as_slice();
        if row[0] != 0 { None } else { Some(&row[1..]) }
    }

    /// Returns the measure, borrowed.
    pub fn view(&self) -> View<'_>
        ensures value { measure_in result ≡ self.now.value }
        ensures width { IsOwned self.now }
    {
        match self.list() {
            None => View::Top,
            Some(list) => View::List(list),
        }
    }

    /// Copies a borrowed measure into this one. A list must have exactly as many components as this measure has room for.
    pub fn set(&mut self, m: View)
        requires { (xs : List ℕ) → measure_in m ≡ Some xs → length xs ≡ self.old.width }
        ensures { self.new ≡ owned (measure_in m.entry) self.old.width }
    {
        let row = self.row.as_mut_slice();
        match m {
            View::Top => row[0] = 1,
            View::List(list) => {
                row[0] = 0;
                row[1..].copy_from_slice(list);
            }
        }
    }

    /// Whether this measure is within the bounds: top, or a list with a component for each bound, none of them above its bound.
    pub fn fits(&self, bounds: &Bounds) -> bool
        ensures { IsTrue result ↔ Fits bounds.now self.now.value }
    {
        match self.list() {
            None => true,
            Some(list) => row::fits(list, bounds.pairs()),
        }
    }

    /// Compares the components for priorities of at least `p` in lexicographic order. Top is above every list.
    pub fn order_from(&self, other: &Measure, p: u32, bounds: &Bounds) -> Ordering
        ensures { MatchOrdering result (IsBelow (measure_from bounds.now p self.now.value)
            (measure_from bounds.now p other.now.value))
            (measure_from bounds.now p self.now.value ≡ measure_from bounds.now p other.now.value)
            (IsBelow (measure_from bounds.now p other.now.value) (measure_from bounds.now p self.now.value)) }
    {
        let width = bounds.width_from(p);
        match (self.list(), other.list()) {
            (None, None) => Ordering::Equal,
            (None, Some(_)) => Ordering::Greater,
            (Some(_), None) => Ordering::Less,
            (Some(a), Some(b)) => row::first(a, width).cmp(row::first(b, width)),
        }
    }

    /// Returns the least measure within the bounds that covers this one at `p`. This measure must be within the bounds. Fails only if
    /// memory runs out.
    pub fn least_step(&self, p: u32, bounds: &Bounds) -> Result<Measure, AllocError>
        requires { Fits bounds.now self.now.value }
        ensures least { IfOk result (λ m. IsLeastStep bounds.now p self.now.value m.value) }
        ensures width { IfOk result (λ m. m.width ≡ self.now.width) }
    {
        let mut row = SmallVec::from_slice(*self.row.allocator(), self.row.as_slice())?;
        let numbers = row.as_mut_slice();
        if numbers[0] == 0 {
            row::step(numbers, bounds.pairs(), bounds.width_from(p), p % 2 == 1);
        }
        Ok(Measure { row })
    }
}
