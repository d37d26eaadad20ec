//! The command `game`.

ghost use Rattle.std.specs.Prelude.{◌≡◌, IfOk, IfErr};
ghost use Rattle.pg_text.specs.GameLayout.{game_text};
ghost use Rattle.pg_cli_command.specs.Making.{IsMade, RefusesGame};
ghost use Rattle.pg_cli_command.specs.Mirrors.Working.{ShowsWhat, Fails};

use crate::fault::CliFault;
use crate::printing::CommandAnswer;
use pg_arena::Game;
use pg_hoa::read_automaton;
use pg_synth::game_of;
use pg_text::write_game;
use std::alloc::Global;
use std::io::Write;

impl CommandAnswer for Game {
    ghost is_whole = { λ _. Unit {0} };

    ghost shows = { λ game output. output ≡ game_text game };

    fn write<W: Write>(self, writer: &mut W) -> Option<()> {
        write_game(&self, writer).ok()
    }
}

/// Makes the game of the automaton that a text spells. Frees the text before it makes the game.
pub(crate) fn game(alloc: Global, text: Vec<u8>) -> Result<Game, CliFault>
    ensures whole { IfOk result ⟦<Game as CommandAnswer>⟧.is_whole }
    ensures answer { IfOk result (ShowsWhat (IsMade text.items) ⟦<Game as CommandAnswer>⟧.shows) }
    ensures refused { IfErr result (Fails (RefusesGame text.items)) }
{
    let automaton = read_automaton(alloc, &text)?;
    drop(text);
    let made = game_of(alloc, &automaton)?;
    Ok(made.game)
}
