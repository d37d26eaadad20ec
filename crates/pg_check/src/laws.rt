//! Laws that follow from the definitions. Each function states one in its contract, and does nothing.

ghost use Rattle.std.specs.Prelude.{List};
ghost use Rattle.pg_arena.specs.Games.{IsGame, priority};
ghost use Rattle.pg_text.specs.declared.answer.Answer.{Answer};
ghost use Rattle.pg_text.specs.Solutions.{winner};
ghost use Rattle.pg_check.specs.Plays.{IsPlay, WinsPlay};
ghost use Rattle.pg_check.specs.Soundness.{Counts, IsSound};
ghost use Rattle.pg_check.specs.Laws.{OneRecurring, HasOneLoser, SoundWins, KeepsToSolution, SoundIffWins, SoundIffSafe, OneWinner};

use crate::play::Play;

/// No play has two greatest recurring priorities, and it is impossible that a play has none. So no play is lost by both
/// players, and it is impossible that one is lost by neither.
pub fn one_recurring()
    ensures { OneRecurring }
{}

/// A given play doesn't have two greatest recurring priorities, and it is impossible that it has none. So it isn't lost by both
/// players, and it is impossible that it is lost by neither.
pub fn one_recurring_of<P: Play>(play: &P)
    requires { IsGame (P.game play.now) }
    ensures { HasOneLoser (λ t. priority (P.game play.now) (P.vertex play.now t)) }
{}

/// In a sound solution each play that follows it stays among the vertices of its first vertex's winner. No finite part
/// of it meets the loser's greatest priority more often than the game has vertices, and that winner wins it.
pub fn sound_wins()
    ensures { SoundWins }
{}

/// A given play that follows a sound solution stays among the vertices of its first vertex's winner. No finite part of it meets the
/// loser's greatest priority more often than the game has vertices, and that winner wins it.
pub fn sound_wins_of<P: Play>(play: &P)
    requires { IsGame (P.game play.now) }
    ensures { (solution : List Answer) → IsSound (P.game play.now) solution
        → IsPlay (Counts (P.game play.now) solution) (P.vertex play.now)
        → KeepsToSolution (P.game play.now) solution (P.vertex play.now)
        × WinsPlay (winner solution (P.vertex play.now 0)) (λ t. priority (P.game play.now) (P.vertex play.now t)) }
{}

/// A solution is sound if and only if each winner wins by it: every play that follows it from a vertex stays among the
/// vertices of that vertex's winner, and that player wins it.
pub fn sound_iff_wins()
    ensures { SoundIffWins }
{}

/// A solution is sound if and only if no edge that it allows joins vertices with different winners, and the greatest
/// priority on each cycle of such edges has the parity of the winner.
pub fn sound_iff_safe()
    ensures { SoundIffSafe }
{}

/// Two sound solutions of one game have the same winners.
pub fn one_winner()
    ensures { OneWinner }
{}

ghost use Rattle.pg_check.specs.Strategies.{ListsWin, NoListInBoth, DecidedMapsSolve, ClosedMapsSound, CertifiedSound};

/// In a closed map of a game, Even wins every play from a vertex with a list in which Even moves only to successors
/// that serve.
pub fn lists_win()
    ensures { ListsWin }
{}

/// No vertex has a list both in a closed map of the game and in a closed map of its dual.
pub fn no_list_in_both()
    ensures { NoListInBoth }
{}

/// If a closed map of a game and one of its dual are nowhere both top, they have a solution.
pub fn decided_maps_solve()
    ensures { DecidedMapsSolve }
{}

/// The solution of a closed map of the game and one of its dual is sound, even if the maps are not the least.
pub fn closed_maps_sound()
    ensures { ClosedMapsSound }
{}

/// A solution that two maps certify is sound, even if they are not closed.
pub fn certified_sound()
    ensures { CertifiedSound }
{}
