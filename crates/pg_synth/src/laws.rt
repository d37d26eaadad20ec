//! Laws that follow from the definitions. Each function's contract states a law, and its body does nothing.

ghost use Rattle.pg_synth.specs.Laws.{AnswerHolds, JoinedLetters, MachineAccepted, OneGame, OneMachine, Unrealizable, WordAndPlay};

/// A letter is determined by its input part and its output part.
pub fn joined_letters()
    ensures { JoinedLetters }
{}

/// Every word traces exactly one play of the automaton's game, and the automaton accepts the word if and only if Even
/// wins that play.
pub fn word_and_play()
    ensures { WordAndPlay }
{}

/// An automaton has exactly one game.
pub fn one_game()
    ensures { OneGame }
{}

/// If a machine follows a sound solution by which Even wins, then for every input word the automaton accepts the word
/// of the inputs and the machine's outputs.
pub fn machine_accepted()
    ensures { MachineAccepted }
{}

/// If Odd wins by a sound solution, the automaton accepts no word whose input letters are those that Odd chooses at the arrivals that the
/// word traces.
pub fn unrealizable()
    ensures { Unrealizable }
{}

/// Only one machine follows a given sound solution by which Even wins, so the result of `mealy_of` is unique.
pub fn one_machine()
    ensures { OneMachine }
{}

/// What the result of `mealy_of` for a sound solution means for endless words.
pub fn answer_holds()
    ensures { AnswerHolds }
{}
