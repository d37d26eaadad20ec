//! The choices of a tableau: what signals have to be, what is asked from the next step on, and which Untils are put off.

use crate::bits::{Bits, LetterCube};
use crate::budget::{Limits, SearchResult};
use std::alloc::Global;

/// A choice. Signals on which no other choice depends are left out of its cube, but not out of its sample.
#[derive(Clone, Copy)]
pub struct CubeChoice {
    /// What the signals that still matter have to be.
    pub cube: LetterCube,
    /// What all signals have to be that aren't known.
    pub sample: LetterCube,
    pub asks: Bits,
    pub puts: Bits,
}

pub type Choices = Vec<CubeChoice>;

impl CubeChoice {
    pub const FREE: CubeChoice = CubeChoice {
        cube: LetterCube::FREE,
        sample: LetterCube::FREE,
        asks: Bits::EMPTY,
        puts: Bits::EMPTY,
    };

    /// Returns the choice that asks for these formulas, and puts off these Untils.
    pub fn asking(asks: Bits, puts: Bits) -> CubeChoice {
        CubeChoice {
            asks,
            puts,
            ..CubeChoice::FREE
        }
    }

    /// Returns the choice of both at once.
    #[inline(always)]
    fn with(&self, other: &CubeChoice) -> CubeChoice {
        CubeChoice {
            cube: self.cube.and(other.cube),
            sample: self.sample.and(other.sample),
            asks: self.asks.or(other.asks),
            puts: self.puts.or(other.puts),
        }
    }

    /// Whether this choice can be made wherever the other one can, asks for no more, and puts off no more.
    #[inline(always)]
    fn serves(&self, other: &CubeChoice) -> bool {
        self.asks.is_within(other.asks)
            && self.puts.is_within(other.puts)
            && self.cube.is_within(other.cube)
    }
}

/// Leaves out each choice for which another one serves.
pub fn pruned(alloc: Global, choices: &[CubeChoice], limits: &mut Limits) -> SearchResult<Choices> {
    let mut kept: Choices = Vec::new(alloc);
    for choice in choices {
        limits.spend(kept.len().saturating_add(1))?;
        if !kept.iter().any(|other| other.serves(choice)) {
            kept.retain(|other| !choice.serves(other));
            kept.push(*choice)?;
        }
    }
    Ok(kept)
}

/// Returns the choices of one list or the other.
pub fn either(
    alloc: Global,
    one: &[CubeChoice],
    other: &[CubeChoice],
    limits: &mut Limits,
) -> SearchResult<Choices> {
    let mut all = Vec::from_slice(alloc, one)?;
    all.extend_from_slice(other)?;
    pruned(alloc, &all, limits)
}

/// Returns the choices of both lists at once.
pub fn both(
    alloc: Global,
    one: &[CubeChoice],
    other: &[CubeChoice],
    limits: &mut Limits,
) -> SearchResult<Choices> {
    let mut all = Vec::with_capacity(alloc, one.len().max(other.len()))?;
    for choice in one {
        limits.spend(other.len().saturating_add(1))?;
        for more in other {
            if choice.cube.agrees(more.cube) {
                all.push(choice.with(more))?;
            }
        }
    }
    if one.len() > 1 || other.len() > 1 {
        return pruned(alloc, &all, limits);
    }
    Ok(all)
}

/// Returns the signals of the choices' cubes.
pub fn signals_of(choices: &[CubeChoice]) -> Bits {
    let mut signals = Bits::EMPTY;
    for choice in choices {
        signals = signals.or(choice.cube.known);
    }
    signals
}

/// Returns the choices with cubes over these signals alone.
pub fn over(
    alloc: Global,
    choices: &[CubeChoice],
    signals: Bits,
    limits: &mut Limits,
) -> SearchResult<Choices> {
    let mut all = Vec::from_slice(alloc, choices)?;
    if signals_of(choices).is_within(signals) {
        return Ok(all);
    }
    for choice in all.iter_mut() {
        choice.cube = choice.cube.over(signals);
    }
    pruned(alloc, &all, limits)
}
