//! Laws about the definitions. Each function states a law in its contract; it allocates no memory and does nothing.

ghost use Rattle.std.specs.Prelude.{ℕ};
ghost use Rattle.pg_synth.specs.Laws.{WordAndPlay};
ghost use Rattle.pg_cli_command.specs.Controllers.{CircuitAccepted, NoneAccepted, NoController, OneVerdict, AnswersWithinLimits};
ghost use Rattle.pg_cli_command.specs.Small.{SmallAccepted};
ghost use Rattle.pg_cli_command.specs.Counter.{CounterRefutes};
ghost use Rattle.pg_cli_command.specs.Verdicts.{VerifyDecides};
ghost use Rattle.pg_cli_command.specs.FormulaLaws.{MeansDecides, ControllerSatisfies, NoneSatisfies};
ghost use Rattle.pg_cli_command.specs.Satisfying.{SatisfiesDecides};
ghost use Rattle.pg_cli_command.specs.Laws.{PrintedWinnersWin, AnyPrintedWinnersWin, LeastIsClosed, OneAnswer};

/// The output of `solve` for a game spells a solution of the game, whichever closed maps are found. Each printed winner wins every endless
/// play that follows the printed strategy, and no vertex has two winners.
pub fn printed_winners_win()
    ensures { PrintedWinnersWin }
{
    pg_text::laws::solution_reads_back();
    pg_check::laws::closed_maps_sound();
    pg_check::laws::sound_wins();
    pg_check::laws::one_winner();
}

/// The output of `solve --any` for a game spells a solution of the game. Each printed winner wins every endless play that follows the
/// printed strategy, and no vertex has two winners.
pub fn any_printed_winners_win()
    ensures { AnyPrintedWinnersWin }
{
    pg_text::laws::solution_reads_back();
    pg_check::laws::sound_wins();
    pg_check::laws::one_winner();
}

/// An answer by least progress measures is also an answer by closed maps, which the other laws are about.
pub fn least_is_closed()
    ensures { LeastIsClosed }
{}

/// By least progress measures, `measure`, `solve`, `synth`, `replay` and `game` each have at most one answer to an input. If `solve` has an
/// answer, it isn't undecided. If `replay` has an answer, no event is refused; if an event is refused, its place and its fault are unique.
/// If `game` has an answer, the game isn't too large. So the output of these five commands is a function of their input.
pub fn one_answer()
    ensures { OneAnswer }
{
    pg_text::laws::one_game();
    pg_measure::laws::one_list_of_bounds();
    pg_map::laws::closed_is_least();
    pg_world::laws::one_script();
    pg_world::laws::same_taken();
    pg_measure::laws::order_is_total();
    pg_hoa::laws::one_reading();
    pg_check::laws::one_winner();
    pg_synth::laws::one_machine();
    pg_aiger::laws::one_circuit();
}

/// An endless word traces one play of the game of an automaton, and the automaton accepts it exactly if Even wins that play.
pub fn word_and_play()
    ensures { WordAndPlay }
{
    pg_synth::laws::word_and_play();
}

/// The text that `synth` prints after `REALIZABLE` spells a circuit, whichever closed maps are found. For every endless word of input
/// letters the circuit has exactly one run, and the automaton that the input spells accepts the word of that run.
pub fn circuit_accepted()
    ensures { (letters : ℕ → ℕ) → CircuitAccepted letters }
{
    pg_aiger::laws::circuit_follows();
    pg_aiger::laws::circuit_reads_back();
    pg_synth::laws::machine_accepted();
}

/// The text that `synth --small` prints after `REALIZABLE` spells a circuit, whatever circuits are proposed. For every endless word of
/// input letters the circuit has exactly one run, and the automaton that the input spells accepts the word of that run.
pub fn small_accepted()
    ensures { (letters : ℕ → ℕ) → SmallAccepted letters }
{
    pg_aiger::laws::one_run();
    pg_aiger::laws::circuit_follows();
    pg_aiger::laws::circuit_reads_back();
    pg_synth::laws::machine_accepted();
}

/// The text that `synth --counter` prints after `UNREALIZABLE` spells a circuit, whatever circuits are proposed. The circuit's outputs
/// don't depend on inputs of the same step. For every endless list of the controller's letters the circuit has exactly one run, and the
/// automaton that the input spells doesn't accept the word of that run.
pub fn counter_refutes()
    ensures { CounterRefutes }
{
    pg_aiger::laws::circuit_reads_back();
}

/// If `synth` prints `UNREALIZABLE`, then, whichever closed maps are found, the automaton doesn't accept an endless word whose input
/// letters are those that Odd's strategy chooses at the arrivals that the word traces.
pub fn unrealizable()
    ensures { (letters : ℕ → ℕ) → NoneAccepted letters }
{
    pg_synth::laws::unrealizable();
}

/// If `synth` prints `UNREALIZABLE`, then, whichever closed maps are found, there is no controller: for each function from the input
/// letters so far to an output letter there is an endless word of input letters from which the function makes a word that isn't accepted.
pub fn no_controller()
    ensures { NoController }
{
    pg_synth::laws::unrealizable();
}

/// No input has both answers of `synth`.
pub fn one_verdict()
    ensures { OneVerdict }
{
    pg_hoa::laws::one_reading();
    pg_check::laws::one_winner();
}

/// If `synth` answers an input, it doesn't refuse that input for the limits: the game of the automaton isn't too large, whichever closed
/// maps are found, and, by least progress measures, neither is the machine that Even wins by.
pub fn answers_within_limits()
    ensures { AnswersWithinLimits }
{
    pg_hoa::laws::one_reading();
    pg_check::laws::one_winner();
    pg_measure::laws::one_list_of_bounds();
    pg_map::laws::closed_is_least();
    pg_synth::laws::one_machine();
}

/// The output of `verify` for two texts says whether the automaton that the first text spells accepts each run of the circuit that the
/// second text spells. Each text spells exactly one. The output is `ACCEPTED` exactly if the automaton accepts each run; otherwise it shows
/// input letters on which the automaton doesn't.
pub fn verify_decides()
    ensures { VerifyDecides }
{
    pg_hoa::laws::one_reading();
    pg_aiger_reader::laws::one_reading();
    pg_aiger_reader::laws::one_tie();
    pg_verify::laws::verdicts_decide();
}

/// The output of `means` for two texts says whether the automaton that the first text spells accepts exactly the words that satisfy the
/// formula that the second text spells. Each text spells exactly one. The output is `SAME` exactly if it does; otherwise the output shows a
/// word on which automaton and formula differ.
pub fn means_decides()
    ensures { MeansDecides }
{
    pg_hoa::laws::one_reading();
    pg_ltl::laws::one_reading();
}

/// If `automaton` prints an automaton for a formula, and `synth` or `synth --small` prints a circuit for this automaton with outputs, then
/// for every endless word of input letters the circuit has exactly one run, and the word of that run satisfies the formula.
pub fn controller_satisfies()
    ensures { (letters : ℕ → ℕ) → ControllerSatisfies letters }
{
    pg_hoa::laws::one_reading();
    pg_hoa::laws::shape_tells();
    small_accepted();
}

/// If `automaton` prints an automaton for a formula, and `synth` prints `UNREALIZABLE` for this automaton with outputs, there is no
/// controller: for each function from the input letters so far to an output letter there is an endless word of input letters from which the
/// function makes a word that doesn't satisfy the formula.
pub fn none_satisfies()
    ensures { NoneSatisfies }
{
    pg_hoa::laws::one_reading();
    pg_hoa::laws::shape_tells();
    no_controller();
}

/// The texts of `verify --ltl` spell one formula and one circuit, which has one run for each endless input word. The output is `ACCEPTED` if
/// and only if every run of the circuit satisfies the formula; for a circuit that plays the environment it is `REFUTES` if and only if no
/// run does.
pub fn satisfies_decides()
    ensures { SatisfiesDecides }
{
    pg_ltl::laws::one_reading();
    pg_aiger_reader::laws::one_reading();
    pg_aiger_netlist::laws::one_run();
    pg_satisfies::laws::satisfies_decides();
}
