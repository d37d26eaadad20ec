//! Certificates: proposed evidence that no run of a circuit satisfies a formula.

ghost use Rattle.std.specs.Prelude.{◌≡◌, List};
ghost use Rattle.std.specs.Bool.{OnTrue};
ghost use Rattle.pg_ltl.specs.NormalForms.{NormalForm};
ghost use Rattle.pg_means_look.specs.Mirrors.Tables.{row_at};
ghost use Rattle.pg_means_look.specs.Mirrors.Choices.{parts};
ghost use Rattle.pg_means_look.specs.Mirrors.Views.{rank_in, witness_in};
ghost use Rattle.pg_satisfies_check.specs.declared.cube.LatchCube.{LatchCube};
ghost use Rattle.pg_satisfies_check.specs.Certificates.{IsFine};
ghost use Rattle.pg_satisfies_check.specs.Mirrors.Views.{cube_in, certificate_of};

use crate::places::has;

/// Proposed evidence that no run of a circuit satisfies a formula. Each node stands for the steps in a cube, asks for formulas, and has a
/// rank. Node 0 is the start. Past the ends of the lists, a node has the cube 0, asks for nothing and has the rank 0, and a rank has no
/// Until.
#[derive(Debug, Drop)]
pub struct EmptinessCertificate {
    /// For each node the number of its cube.
    pub places: Vec<usize>,
    /// For each node the places of the formulas that it asks for.
    pub asks: Vec<Vec<usize>>,
    /// For each node its rank. No edge goes to a higher rank.
    pub ranks: Vec<u32>,
    /// For each rank possibly the place of an Until, which each edge inside the rank puts off.
    pub witnesses: Vec<Option<usize>>,
}

impl EmptinessCertificate {
    /// Returns the number of the cube of a node; past the last one, 0.
    pub(crate) fn place(&self, v: usize) -> usize
        ensures { result ≡ cube_in self.now.places.items v }
    {
        self.places.get(v).copied().unwrap_or(0)
    }

    /// Returns the formulas that a node asks for; past the last one, none.
    pub(crate) fn asks(&self, v: usize) -> &[usize]
        ensures { result.now ≡ row_at self.now.asks.items v }
    {
        match self.asks.get(v) {
            Some(asks) => asks.as_slice(),
            None => &[],
        }
    }

    fn rank(&self, v: usize) -> u32
        ensures { result ≡ rank_in self.now.ranks.items v }
    {
        self.ranks.get(v).copied().unwrap_or(0)
    }

    fn witness(&self, rank: u32) -> Option<usize>
        ensures { result ≡ witness_in self.now.witnesses.items rank }
    {
        self.witnesses.get(rank as usize).copied().unwrap_or(None)
    }

    /// Whether an edge from `v` to `w` that puts off these Untils is consistent with the ranks.
    pub(crate) fn is_fine(&self, v: usize, puts: &[usize], w: usize) -> bool
        ensures { OnTrue result ((forms : List NormalForm) (cubes : List LatchCube) → IsFine (certificate_of forms cubes self.now) v (parts forms puts.now) w) }
    {
        let from = self.rank(v);
        let to = self.rank(w);
        if to != from {
            return to < from;
        }
        match self.witness(from) {
            Some(until) => has(puts, until),
            None => false,
        }
    }
}
