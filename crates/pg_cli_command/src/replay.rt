//! The command `replay`.

ghost use Rattle.std.specs.Prelude.{◌≡◌, ◌<◌, ℕ, List, All, length, IfOk, IfErr};
ghost use Rattle.pg_measure.specs.Measures.{MeasureValue};
ghost use Rattle.pg_text.specs.GameText.{IsGameText};
ghost use Rattle.pg_world.specs.ScriptText.{IsScriptText};
ghost use Rattle.pg_cli_command.specs.Replaying.{IsReplayed, RefusesReplay, AreMapsOf, world_text};
ghost use Rattle.pg_cli_command.specs.Mirrors.Parting.{parting_of};
ghost use Rattle.pg_cli_command.specs.Mirrors.Working.{ShowsWhat, Fails};

use crate::fault::CliFault;
use crate::parts::Texts;
use crate::printing::CommandAnswer;
use crate::world_output::write_world;
use pg_arena::Game;
use pg_text::read_game;
use pg_world::{Script, World, laws, read_script};
use std::alloc::Global;
use std::io::Write;

impl CommandAnswer for World {
    ghost is_whole = { λ w. All (λ u. u.vertex < length w.game) w.updates };

    ghost shows = { λ w output. (maps : List (List MeasureValue)) × AreMapsOf w maps × (output ≡ world_text w maps) };

    fn write<W: Write>(self, writer: &mut W) -> Option<()> {
        write_world(&self, writer).ok()
    }
}

/// Reads the game that the first text spells, and the script that the second text spells.
fn scripted(alloc: Global, texts: &Texts) -> Result<(Game, Script), CliFault>
    ensures found { IfOk result (λ x. (first : List ℕ) × (second : List ℕ) × parting_of texts.now first second
        × IsGameText first x.0 × IsScriptText second x.0 x.1.cut x.1.events.items) }
    ensures refused { IfErr result (Fails (RefusesReplay (parting_of texts.now))) }
{
    match texts.both() {
        None => Err(CliFault::NoSeparator),
        Some((first, second)) => {
            let game = read_game(alloc, first)?;
            let script = read_script(alloc, &game, second)?;
            Ok((game, script))
        }
    }
}

/// Returns the world after the events of the script that the second text spells, for the game of the first text. Frees the texts before the
/// events happen.
pub(crate) fn replay(alloc: Global, texts: Texts) -> Result<World, CliFault>
    ensures whole { IfOk result ⟦<World as CommandAnswer>⟧.is_whole }
    ensures answer { IfOk result (ShowsWhat (IsReplayed (parting_of texts)) ⟦<World as CommandAnswer>⟧.shows) }
    ensures refused { IfErr result (Fails (RefusesReplay (parting_of texts))) }
{
    let (game, script) = scripted(alloc, &texts)?;
    drop(texts);
    laws::never_above();
    // A script's cut fits the game, so this fails only if memory runs out.
    let Ok(mut world) = World::new(alloc, game, script.cut) else {
        return Err(CliFault::OutOfMemory);
    };
    world.run(&script.events)?;
    Ok(world)
}
