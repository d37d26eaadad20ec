//! Laws that follow from the definitions. Each function states one in its contract, and does nothing.

ghost use Rattle.pg_text.specs.Limits.{AcceptsWithinLimits, NamesSuccessors};
ghost use Rattle.pg_text.specs.OneSpelling.{SpellsOneGame, SpellsOneSolution};
ghost use Rattle.pg_text.specs.ReadBack.{GameReadsBack};
ghost use Rattle.pg_text.specs.SolutionReadBack.{SolutionReadsBack};

/// If a game keeps the limits on vertices, edges and identifiers, its priorities are at most 65,535 and its names
/// contain no quote, then its text spells that game and no other.
pub fn game_reads_back()
    ensures { GameReadsBack }
{}

/// If the identifiers of a game keep their limit, the text of a solution of it spells the solution's winners, and its
/// choices at the vertices that the winners own, and nothing else.
pub fn solution_reads_back()
    ensures { SolutionReadsBack }
{}

/// A text spells at most one game.
pub fn one_game()
    ensures { SpellsOneGame }
{}

/// For a given game, a text spells at most one solution.
pub fn one_solution()
    ensures { SpellsOneSolution }
{}

/// The builder accepts the lines of a text one after another if and only if no two have the same identifier, each has a
/// successor and a priority of at most 65,535, and there are at most 1,048,576 lines and 8,388,608 edges.
pub fn accepts_within_limits()
    ensures { AcceptsWithinLimits }
{}

/// In the text of a game, each successor is the identifier of some line.
pub fn names_successors()
    ensures { NamesSuccessors }
{}
