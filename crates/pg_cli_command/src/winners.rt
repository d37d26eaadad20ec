//! What the answers say about who wins. Each function states a law in its contract, and does nothing.

ghost use Rattle.pg_cli_command.specs.Winners.{MeasuresTellWinners, NoneUndecided, GamesHaveAnswers};

/// If `measure` prints a list, Even wins from the vertex, and if it prints `T`, Odd does.
pub fn measures_tell_winners()
    ensures { MeasuresTellWinners }
{
    pg_check_determined::laws::least_tells_winners();
}

/// If the maps are the least progress measures, no vertex is undecided, so neither `solve`, `synth` nor `verify` fails with
/// `Undecided`.
pub fn none_undecided()
    ensures { NoneUndecided }
{
    pg_check_determined::laws::never_undecided();
}

/// If an input spells a game, `measure` and `solve` have an answer to it.
pub fn games_have_answers()
    ensures { GamesHaveAnswers }
{
    pg_measure::laws::has_bounds();
    pg_map::laws::game_lines();
    pg_map::laws::has_least_progress_measure();
    pg_check_determined::laws::never_undecided();
    pg_check::laws::decided_maps_solve();
}
