//! The command `check`.

ghost use Rattle.std.specs.Prelude.{◌≡◌, ◌<◌, length, map, All, IfOk, IfErr, OnOk};
ghost use Rattle.std.specs.Io.KnownBytes.{Appends};
ghost use Rattle.pg_arena.specs.Games.{priority};
ghost use Rattle.pg_cli_command.specs.Checking.{greatest, verdict_text, IsChecked, RefusesCheck};
ghost use Rattle.pg_cli_command.specs.Mirrors.Naming.{IsWithin};
ghost use Rattle.pg_cli_command.specs.Mirrors.Parting.{parting_of};
ghost use Rattle.pg_cli_command.specs.Mirrors.Working.{ShowsWhat, Fails};

use crate::fault::CliFault;
use crate::parts::Texts;
use crate::printing::CommandAnswer;
use pg_arena::{Game, Vertex};
use pg_check::Verdict;
use pg_text::writing::{write_identifiers, write_number};
use pg_text::{read_game, read_solution};
use std::alloc::Global;
use std::io::{self, Write};

/// Returns the greatest priority of these vertices, or 0 if there are none.
fn greatest_priority(game: &Game, vertices: &[Vertex]) -> u32
    requires { All (λ v. v < length game.now) vertices.now }
    ensures { result ≡ greatest (map (priority game.now) vertices.now) }
{
    let mut most = 0;
    for v in vertices {
        most = most.max(game.priority(*v));
    }
    most
}

/// Writes a verdict and a newline: `WINS`; or `LEAVES` and the identifiers of the edge; or `CYCLE`, the greatest priority of the cycle, and
/// its identifiers separated by commas.
fn write_verdict<W: Write>(writer: &mut W, game: &Game, verdict: &Verdict) -> io::Result<()>
    requires { IsWithin game.now verdict.now }
    ensures { OnOk result
        (Appends (W.contents writer.old) (W.contents writer.new) (verdict_text game.now verdict.now)) }
{
    match verdict {
        Verdict::Wins => writer.write_all(b"WINS\n"),
        Verdict::Leaves(from, to) => {
            writer.write_all(b"LEAVES ")?;
            write_number(game.identifier(*from), writer)?;
            writer.write_all(b" ")?;
            write_number(game.identifier(*to), writer)?;
            writer.write_all(b"\n")
        }
        Verdict::BadCycle(cycle) => {
            writer.write_all(b"CYCLE ")?;
            write_number(greatest_priority(game, cycle), writer)?;
            writer.write_all(b" ")?;
            write_identifiers(game, cycle, writer)?;
            writer.write_all(b"\n")
        }
    }
}

/// A game, and the checker's verdict on a solution of it.
#[derive(Drop)]
pub(crate) struct Checked {
    game: Game,
    verdict: Verdict,
}

impl CommandAnswer for Checked {
    ghost is_whole = { λ a. IsWithin a.game a.verdict };

    ghost shows = { λ a output. output ≡ verdict_text a.game a.verdict };

    fn write<W: Write>(self, writer: &mut W) -> Option<()> {
        write_verdict(writer, &self.game, &self.verdict).ok()
    }
}

/// Returns the checker's verdict on the solution that the second text spells, for the game of the first text.
pub(crate) fn check(alloc: Global, texts: Texts) -> Result<Checked, CliFault>
    ensures whole { IfOk result ⟦<Checked as CommandAnswer>⟧.is_whole }
    ensures answer { IfOk result (ShowsWhat (IsChecked (parting_of texts)) ⟦<Checked as CommandAnswer>⟧.shows) }
    ensures refused { IfErr result (Fails (RefusesCheck (parting_of texts))) }
{
    match texts.both() {
        None => Err(CliFault::NoSeparator),
        Some((first, second)) => {
            let game = read_game(alloc, first)?;
            let solution = read_solution(alloc, &game, second)?;
            let verdict = pg_check::check(alloc, &game, &solution)?;
            Ok(Checked { game, verdict })
        }
    }
}
