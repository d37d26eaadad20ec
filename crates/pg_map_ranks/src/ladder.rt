//! Ladders: rows of components that rise by steps.

ghost use Rattle.std.specs.Prelude.{◌≡◌, ◌↔◌, ℕ, ◌+◌, ◌^◌, ◌<◌, ◌≤◌, length, IsTrue, IsSome, IfOk, IfSome};
ghost use Rattle.pg_measure.specs.Measures.{AreBounds};
ghost use Rattle.pg_map_ranks.specs.Ladders.{row, IsLadder, IsJustifiedFrom};
ghost use Rattle.pg_map_ranks.specs.Mirrors.Blocks.{CoversUnder};

use crate::block::{high_of, low_of};
use crate::row::write_row;
use crate::table::{begins_of, counts_of, ends_of, origins_of};
use pg_measure::Bounds;
use std::alloc::{AllocError, Global};
use std::marker::Model;

/// Steps at odd priorities that begin at zeros: each makes the component of its priority one greater, and the components of lesser
/// priorities 0. Contracts see the bounds and the priorities of the steps.
#[derive(Drop)]
pub struct Ladder {
    bounds: Bounds,
    steps: Vec<u32>,
    /// For each step, where the steps at lesser priorities right before it begin.
    begins: Vec<u32>,
    /// For each step, where the steps at no greater priorities right before it begin.
    origins: Vec<u32>,
    /// For each step, where the steps at no greater priorities right after it end.
    ends: Vec<u32>,
    /// For each step, the component that it makes greater, as it is after the step.
    counts: Vec<u32>,
}

impl Model for Ladder {
    ghost use Rattle.pg_map_ranks.specs.Ladders.{LadderValue};
    ghost use Rattle.pg_map_ranks.specs.Mirrors.Rungs.{AreRungs};

    ghost Value = { LadderValue };

    ghost view = { λ l. record { bounds = l.bounds; steps = l.steps.items } };

    ghost invariant = { λ l. AreRungs l.bounds l.steps.items l.begins.items l.origins.items l.ends.items l.counts.items };
}

impl Ladder {
    /// Makes the ladder with these steps. Returns `None` if one of its rows isn't within the bounds, if a step is at none of their
    /// priorities, or if there are `2^32 - 2` steps or more. Fails only if memory runs out.
    pub fn new(
        alloc: Global,
        bounds: &Bounds,
        steps: Vec<u32>,
    ) -> Result<Option<Ladder>, AllocError>
        ensures bounds { IfOk result (λ o. IfSome o (λ l. l.bounds ≡ bounds.now)) }
        ensures steps { IfOk result (λ o. IfSome o (λ l. l.steps ≡ steps.items)) }
        ensures ladder { IfOk result (λ o. IsSome o ↔ (IsLadder bounds.now steps.items × (length steps.items + 2 < 2 ^ 32))) }
    {
        if steps.len() >= u32::MAX as usize - 1 {
            return Ok(None);
        }
        let begins = begins_of(alloc, &steps)?;
        let origins = origins_of(alloc, &steps, &begins)?;
        let ends = ends_of(alloc, &steps)?;
        let Some(counts) = counts_of(alloc, bounds, &steps, &begins)? else {
            return Ok(None);
        };
        let bounds = Bounds::from_pairs(alloc, bounds.pairs())?;
        Ok(Some(Ladder {
            bounds,
            steps,
            begins,
            origins,
            ends,
            counts,
        }))
    }

    /// Returns the bounds of its rows.
    pub fn bounds(&self) -> &Bounds
        ensures value { result.now ≡ self.now.bounds }
        ensures bounds { AreBounds self.now.bounds }
        ensures ladder { IsLadder self.now.bounds self.now.steps }
        ensures few { length self.now.steps + 2 < 2 ^ 32 }
    {
        let _steps = &self.steps;
        &self.bounds
    }

    /// Whether a rank is that of a row. The ranks past the last row are top.
    #[inline(always)]
    pub(crate) fn is_row(&self, rank: u32) -> bool
        ensures { IsTrue result ↔ (rank ≤ length self.now.steps) }
    {
        rank as usize <= self.steps.len()
    }

    /// Returns a rank from which on all ranks justify this one at a priority.
    #[inline]
    pub fn low_of(&self, priority: u32, rank: u32) -> u32
        ensures { IsJustifiedFrom self.now.bounds self.now.steps priority rank result }
    {
        low_of(&self.steps, &self.begins, priority, rank)
    }

    /// Returns the rank below which the measure of this one covers the measures of others at a priority, or `None` at top, which
    /// covers all. The hint may name the greatest step of the block that begins at the rank.
    #[inline]
    pub(crate) fn high_of(&self, priority: u32, rank: u32, hint: u32) -> Option<u32>
        ensures { CoversUnder self.now.bounds self.now.steps priority rank result }
    {
        if !self.is_row(rank) {
            return None;
        }
        Some(high_of(&self.steps, &self.begins, &self.ends, priority, rank, hint))
    }

    /// Writes the row of a rank into `list`.
    pub(crate) fn write_row(&self, rank: u32, list: &mut [u32])
        requires rank { rank ≤ length self.now.steps }
        requires size { length list.old ≡ length self.now.bounds }
        ensures { list.new ≡ row self.now.bounds self.now.steps rank }
    {
        write_row(
            &self.bounds,
            &self.steps,
            &self.origins,
            &self.counts,
            rank,
            list,
        );
    }
}
