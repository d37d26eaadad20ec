//! Writing games.

ghost use Rattle.std.specs.Prelude.{◌≡◌, ◌<◌, ◌++◌, length, decimal, OnOk, IfErr, option_copied, codes};
ghost use Rattle.std.specs.Io.KnownBytes.{Appends};
ghost use Rattle.pg_arena.specs.Games.{IsGame, vertex_at};
ghost use Rattle.pg_arena.specs.Lines.{line_of};
ghost use Rattle.pg_text.specs.GameText.{player_number};
ghost use Rattle.pg_text.specs.GameLayout.{name_text, line_text, game_text};

use crate::fault::TextFault;
use crate::writing::{write_identifiers, write_number};
use pg_arena::{Game, Player, Vertex};
use std::io::{self, Write};

fn write_name<W: Write>(name: Option<&[u8]>, out: &mut W) -> io::Result<()>
    ensures { OnOk result (Appends (W.contents out.old) (W.contents out.new) (name_text (option_copied name.entry))) }
{
    if let Some(name) = name {
        out.write_all(b" \"")?;
        out.write_all(name)?;
        out.write_all(b"\"")?;
    }
    Ok(())
}

/// Writes the owner's number between two spaces.
fn write_owner<W: Write>(owner: Player, out: &mut W) -> io::Result<()>
    ensures { OnOk result (Appends (W.contents out.old) (W.contents out.new)
        (codes " " ++ (decimal (player_number owner) ++ codes " "))) }
{
    match owner {
        Player::Even => out.write_all(b" 0 "),
        Player::Odd => out.write_all(b" 1 "),
    }
}

fn write_line<W: Write>(game: &Game, v: Vertex, out: &mut W) -> io::Result<()>
    requires game { IsGame game.now }
    requires vertex { v < length game.now }
    ensures { OnOk result (Appends (W.contents out.old) (W.contents out.new)
        (line_text (line_of game.now (vertex_at game.now v)))) }
{
    write_number(game.identifier(v), out)?;
    out.write_all(b" ")?;
    write_number(game.priority(v), out)?;
    write_owner(game.owner(v), out)?;
    write_identifiers(game, game.successors(v), out)?;
    write_name(game.name(v), out)?;
    out.write_all(b";\n")
}

/// Writes a game in PGSolver's format: `parity N;` with the greatest identifier, then a line for each vertex in rising
/// order of identifiers. The fields of a line are separated by single spaces, the successors rise and are separated by
/// commas, a name is in quotes as it is, and a newline follows each `;`. It makes many small writes, so pass a buffered
/// writer.
///
/// It fails only with `Write`, if the writer fails; part of the text may have been written by then.
pub fn write_game<W: Write>(game: &Game, out: &mut W) -> Result<(), TextFault>
    ensures bytes { OnOk result (Appends (W.contents out.old) (W.contents out.new) (game_text game.now)) }
    ensures refused { IfErr result (λ fault. fault ≡ TextFault.Write) }
{
    let len = game.len();
    out.write_all(b"parity ")?;
    write_number(game.identifier(Vertex((len - 1) as u32)), out)?;
    out.write_all(b";\n")?;
    for v in 0..len {
        write_line(game, Vertex(v as u32), out)?;
    }
    Ok(())
}
