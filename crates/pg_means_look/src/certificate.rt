//! Certificates: proposed evidence that no word satisfies a formula and is at the same time accepted by an automaton, or rejected by it.

ghost use Rattle.std.specs.Prelude.{◌≡◌, ◌<◌, ℕ, ◌%◌, List};
ghost use Rattle.std.specs.Bool.{OnTrue};
ghost use Rattle.pg_ltl.specs.NormalForms.{NormalForm};
ghost use Rattle.pg_means_look.specs.Certificates.{IsFine};
ghost use Rattle.pg_means_look.specs.Mirrors.Tables.{row_at};
ghost use Rattle.pg_means_look.specs.Mirrors.Choices.{parts};
ghost use Rattle.pg_means_look.specs.Mirrors.Views.{node_at, rank_in, witness_in, certificate_of, IsFineAt};

use crate::places::has;

/// A state of the automaton, and a set of formulas, by its number.
#[derive(Clone, Copy, Debug, PartialEq, Eq)]
pub struct Node {
    pub state: u32,
    pub set: usize,
}

/// What a certificate says of one priority: the rank of each node, and for each rank possibly the place of an Until. Past the ends of the
/// lists, ranks are 0 and there is no Until.
#[derive(Debug, Drop)]
pub struct Level {
    pub ranks: Vec<u32>,
    pub witnesses: Vec<Option<usize>>,
}

/// The nodes of a product, the sets of formulas, by their places, and the levels of the priorities of one parity, the least priority
/// first.
#[derive(Debug, Drop)]
pub struct Certificate {
    pub nodes: Vec<Node>,
    pub sets: Vec<Vec<usize>>,
    pub levels: Vec<Level>,
}

impl Level {
    fn rank(&self, v: usize) -> u32
        ensures { result ≡ rank_in self.now.ranks.items v }
    {
        self.ranks.get(v).copied().unwrap_or(0)
    }

    fn witness(&self, rank: u32) -> Option<usize>
        ensures { result ≡ witness_in self.now.witnesses.items rank }
    {
        self.witnesses.get(rank as usize).copied().unwrap_or(None)
    }

    /// Whether an edge of this priority from `v` to `w` is consistent with what the level says of the priority `p`.
    fn is_fine(&self, p: usize, priority: u32, puts: &[usize], v: usize, w: usize) -> bool
        ensures { OnTrue result (IsFineAt self.now.ranks.items self.now.witnesses.items p priority puts.now v w) }
    {
        if priority as usize > p {
            return true;
        }
        let from = self.rank(v);
        let to = self.rank(w);
        if to != from {
            return to < from;
        }
        match self.witness(from) {
            Some(until) => has(puts, until),
            None => priority as usize != p,
        }
    }
}

impl Certificate {
    /// Whether an edge of this priority from `v` to `w` is consistent with what the certificate says of each priority of the parity.
    pub(crate) fn is_fine(
        &self,
        parity: u32,
        priority: u32,
        puts: &[usize],
        v: usize,
        w: usize,
    ) -> bool
        requires { parity < 2 }
        ensures { OnTrue result ((forms : List NormalForm) (p : ℕ) → p % 2 ≡ parity
            → IsFine (certificate_of forms self.now) p priority (parts forms puts.now) v w) }
    {
        let count = self.levels.len();
        if count > 1_000_000 || priority as usize >= 2 * count + parity as usize {
            return false;
        }
        for (k, level) in self.levels.iter().enumerate() {
            if !level.is_fine(2 * k + parity as usize, priority, puts, v, w) {
                return false;
            }
        }
        true
    }

    /// Returns the node with this number; past the last node, state 0 with the set 0.
    pub(crate) fn node(&self, v: usize) -> Node
        ensures { result ≡ node_at self.now.nodes.items v }
    {
        match self.nodes.get(v) {
            Some(node) => *node,
            None => Node { state: 0, set: 0 },
        }
    }

    /// Returns the formulas of the set with this number; past the last set, none.
    pub(crate) fn set(&self, number: usize) -> &[usize]
        ensures { result.now ≡ row_at self.now.sets.items number }
    {
        match self.sets.get(number) {
            Some(set) => set.as_slice(),
            None => &[],
        }
    }
}
