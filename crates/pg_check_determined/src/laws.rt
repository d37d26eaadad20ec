//! Laws over the definitions. Each function states one in its contract; it takes no memory and does nothing.

ghost use Rattle.pg_check_determined.specs.Winners.{HasSoundSolution, EachHasOneWinner, LeastTellsWinners, NeverUndecided};

/// Each game has a sound solution, so that from each vertex some player wins by a strategy that looks at the vertex
/// alone.
pub fn has_sound_solution()
    ensures { HasSoundSolution }
{}

/// From each vertex of a game one player wins and the other doesn't, and every sound solution gives the vertex to the player who
/// wins.
pub fn each_has_one_winner()
    ensures { EachHasOneWinner }
{}

/// The least progress measure has a list exactly where Even wins, and is top exactly where Odd wins.
pub fn least_tells_winners()
    ensures { LeastTellsWinners }
{}

/// The least progress measures of a game and of its dual aren't both top at a vertex.
pub fn never_undecided()
    ensures { NeverUndecided }
{}
