//! The laws at one play.

ghost use Rattle.std.specs.Prelude.{ℕ, List, [], ◌∷◌, None};
ghost use Rattle.pg_arena.specs.declared.player.Player.TheVariants.{Even};
ghost use Rattle.pg_arena.specs.Games.{GameVertex, priority};
ghost use Rattle.pg_check.specs.Laws.{HasOneLoser};
ghost use Rattle.pg_check_tests.specs.Lonely.{lonely_game, lonely_goes_on, lonely_is_game};

use pg_check::{Play, laws};
use std::test::Fail;

/// The play of the one vertex that leads to itself.
struct Lonely;

impl Play for Lonely {
    ghost game = { λ _. lonely_game };

    ghost vertex = { λ _ _. 0 };

    ghost goes_on = { λ _. lonely_goes_on };
}

/// The play has one greatest recurring priority. The test is that this is proved: the contract follows from the law's.
fn one_loser(play: &Lonely)
    ensures { HasOneLoser (λ t. priority lonely_game 0) }
{
    laws::one_recurring_of(play);
}

#[test]
fn laws_hold_of_a_play(_rt: HostRuntime) -> Result<(), Fail> {
    one_loser(&Lonely);
    Ok(())
}
