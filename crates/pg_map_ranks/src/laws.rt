//! What is proved of ranks: each function's contract is a law, and its body does nothing.

ghost use Rattle.pg_map_ranks.specs.Laws.{RanksCompare};

/// Rank 0 is zeros, and ranks compare as their measures do.
pub fn ranks_compare()
    ensures { RanksCompare }
{}
