//! Numbers in lists, sets of small numbers as bits, and budgets.

use crate::fault::{Attempt, TranslateFault};
pub use pg_search_components::{NONE, at, between, count, has_bit, is_marked, item, power, put};
use std::alloc::Global;

/// The most edges, states times letters, that are made.
pub const MOST_EDGES: usize = 1 << 24;

/// Spreads the low bits of a number over the places of a mask, the least first.
pub fn spread(number: u32, mask: u32) -> u32 {
    let mut spread = 0;
    let mut rest = mask;
    for place in 0..mask.count_ones() {
        let lowest = rest & rest.wrapping_neg();
        if has_bit(number, place) {
            spread |= lowest;
        }
        rest &= !lowest;
    }
    spread
}

/// Gathers the bits of a number at the places of a mask into the low bits, the least first.
pub fn gathered(number: u32, mask: u32) -> u32 {
    let mut gathered = 0;
    let mut rest = mask;
    for place in 0..mask.count_ones() {
        let lowest = rest & rest.wrapping_neg();
        if number & lowest != 0 {
            gathered |= power(place);
        }
        rest &= !lowest;
    }
    gathered
}

/// A map from numbers to numbers: `NONE` where nothing is noted.
#[derive(Drop)]
pub struct NumberMap {
    of: Vec<u32>,
}

impl NumberMap {
    pub fn new(alloc: Global) -> NumberMap {
        NumberMap {
            of: Vec::new(alloc),
        }
    }

    pub fn get(&self, number: u32) -> u32 {
        at(&self.of, number)
    }

    pub fn set(&mut self, number: u32, noted: u32) -> Attempt<()> {
        if self.of.len() <= number as usize {
            self.of.resize((number as usize).saturating_add(1), NONE)?;
        }
        put(&mut self.of, number, noted);
        Ok(())
    }
}

/// Takes `many` steps from those that are left. Fails with `TooManySteps` once none are left.
pub fn spend(steps: &mut u64, many: u64) -> Attempt<()> {
    *steps = steps.saturating_sub(many);
    if *steps == 0 {
        return Err(TranslateFault::TooManySteps);
    }
    Ok(())
}
