//! The command `measure`.

ghost use Rattle.std.specs.Prelude.{◌≡◌, length, IfOk, IfErr, OnOk};
ghost use Rattle.std.specs.Io.KnownBytes.{Appends};
ghost use Rattle.pg_cli_command.specs.Measuring.{IsMeasured, RefusesMeasure, measures_text};
ghost use Rattle.pg_cli_command.specs.Mirrors.Working.{ShowsWhat, Fails};

use crate::fault::CliFault;
use crate::output::write_measure_line;
use crate::printing::CommandAnswer;
use crate::solver::Solver;
use pg_arena::{Game, Vertex};
use pg_map::Measures;
use pg_text::read_game;
use std::alloc::{AllocError, Global};
use std::io::{self, Write};

/// Returns room for one measure of the map.
fn room_for<M: Measures>(alloc: Global, map: &M) -> Result<Vec<u32>, AllocError>
    ensures { IfOk result (λ room. length room.items ≡ length (M.map map.now).bounds) }
{
    Ok(vec![in alloc; 0; map.bounds().pairs().len()]?)
}

/// Writes a line for each vertex, in rising order of identifiers.
fn write_measures<M: Measures, W: Write>(
    game: &Game,
    map: &M,
    room: &mut [u32],
    writer: &mut W,
) -> io::Result<()>
    requires size { length (M.map map.now).measures ≡ length game.now }
    requires room { length room.old ≡ length (M.map map.now).bounds }
    ensures { OnOk result
        (Appends (W.contents writer.old) (W.contents writer.new) (measures_text game.now (M.map map.now).measures)) }
{
    for number in 0..game.len() {
        let v = Vertex(number as u32);
        write_measure_line(writer, game.identifier(v), map.row(v, room))?;
    }
    Ok(())
}

/// A game and a map of it, with room for a measure.
#[derive(Drop)]
pub(crate) struct Measured<M> {
    game: Game,
    map: M,
    room: Vec<u32>,
}

impl<M: Measures + Drop> CommandAnswer for Measured<M> {
    ghost is_whole = { λ a. (length (M.map a.map).measures ≡ length a.game)
        × (length a.room.items ≡ length (M.map a.map).bounds) };

    ghost shows = { λ a output. output ≡ measures_text a.game (M.map a.map).measures };

    fn write<W: Write>(self, writer: &mut W) -> Option<()> {
        let Measured {
            game,
            map,
            mut room,
        } = self;
        write_measures(&game, &map, &mut room, writer).ok()
    }
}

/// Finds a map of the game that a text spells. Frees the text before the work begins.
pub(crate) fn measure<F: Solver>(
    alloc: Global,
    text: Vec<u8>,
    solver: &mut F,
) -> Result<Measured<F::Map>, CliFault>
    ensures whole { IfOk result ⟦<Measured<F::Map> as CommandAnswer>⟧.is_whole }
    ensures answer { IfOk result
        (ShowsWhat (IsMeasured (F.finds solver.old) text.items) ⟦<Measured<F::Map> as CommandAnswer>⟧.shows) }
    ensures measured { IfOk result
        (ShowsWhat (IsMeasured (F.measures solver.old) text.items) ⟦<Measured<F::Map> as CommandAnswer>⟧.shows) }
    ensures refused { IfErr result (Fails (RefusesMeasure text.items)) }
{
    let game = read_game(alloc, &text)?;
    drop(text);
    let map = solver.measure(alloc, &game)?;
    let room = room_for(alloc, &map)?;
    Ok(Measured { game, map, room })
}
