//! What is proved of claims: each function's contract is a law, and its body does nothing.

ghost use Rattle.pg_map_claims.specs.Laws.{ClaimsHold, ClaimedStaysUnder, ClaimedIsNeverAbove, ZerosAreKnown};

/// If claims are backed over a map, each closed map that is at least that map has what they claim.
pub fn claims_hold()
    ensures { ClaimsHold }
{}

/// A map that is claimed over another by backed claims is at most every closed map that the other is at most.
pub fn claimed_stays_under()
    ensures { ClaimedStaysUnder }
{}

/// A map that is claimed over another by backed claims is never above if the other is never above.
pub fn claimed_is_never_above()
    ensures { ClaimedIsNeverAbove }
{}

/// In every game, the map of zeros is never above.
pub fn zeros_are_known()
    ensures { ZerosAreKnown }
{}
