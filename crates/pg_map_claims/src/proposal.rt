//! What a search proposes: a map, as a ladder and ranks, and claims.

use crate::claim::Claims;

/// A map of ranks in a ladder that is meant to be the least one, and claims meant to show that. Nothing is promised of it: whoever
/// wants to believe it has it certified.
#[derive(Drop)]
pub struct Proposal {
    /// The priority of each step of the ladder.
    pub steps: Vec<u32>,
    /// The rank of each vertex.
    pub ranks: Vec<u32>,
    /// For a vertex of even priority, the first of the greatest steps of the block that begins at its row.
    pub hints: Vec<u32>,
    pub claims: Claims,
}

/// Proposals for a game and for its dual.
#[derive(Drop)]
pub struct Proposals {
    pub of_game: Proposal,
    pub of_dual: Proposal,
}
