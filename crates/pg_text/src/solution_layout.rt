//! Writing solutions.

ghost use Rattle.std.specs.Prelude.{◌≡◌, ℕ, ◌<◌, ◌++◌, length, decimal, codes, OnOk, OnSome, IfErr, option_map};
ghost use Rattle.std.specs.Io.KnownBytes.{Appends};
ghost use Rattle.pg_arena.specs.Games.{IsGame, identifier};
ghost use Rattle.pg_text.specs.GameText.{player_number};
ghost use Rattle.pg_text.specs.Solutions.{IsSolution};
ghost use Rattle.pg_text.specs.SolutionLayout.{printed_answer, printed_line, strategy_text, answer_text, solution_text};

use crate::fault::TextFault;
use crate::solution::Solution;
use crate::solution_text::is_owned;
use crate::writing::{ShortLine, add_number, write_number};
use pg_arena::{Game, Player, Vertex};
use std::io::{self, Write};

/// Writes a space and the winner's number.
#[inline(always)]
fn write_winner<W: Write>(winner: Player, out: &mut W) -> io::Result<()>
    ensures { OnOk result (Appends (W.contents out.old) (W.contents out.new)
        (codes " " ++ decimal (player_number winner))) }
{
    match winner {
        Player::Even => out.write_all(b" 0"),
        Player::Odd => out.write_all(b" 1"),
    }
}

/// Appends a space and the identifier of the choice, if there is one. None if it doesn't fit.
#[inline(always)]
fn add_strategy(line: &mut ShortLine, game: &Game, choice: Option<Vertex>) -> Option<()>
    requires { (w : ℕ) → choice ≡ Some w → w < length game.now }
    ensures { OnSome result (line.new.items ≡ line.old.items ++ strategy_text (option_map (identifier game.now) choice)) }
{
    if let Some(w) = choice {
        line.try_push(b' ').ok()?;
        add_number(line, game.identifier(w))?;
    }
    Some(())
}

/// Appends a space and the winner's number. None if it doesn't fit.
#[inline(always)]
fn add_winner(line: &mut ShortLine, winner: Player) -> Option<()>
    ensures { OnSome result (line.new.items ≡ line.old.items ++ (codes " " ++ decimal (player_number winner))) }
{
    match winner {
        Player::Even => line.try_extend_from_slice(b" 0").ok(),
        Player::Odd => line.try_extend_from_slice(b" 1").ok(),
    }
}

#[inline(always)]
fn write_strategy<W: Write>(game: &Game, choice: Option<Vertex>, out: &mut W) -> io::Result<()>
    requires { (w : ℕ) → choice ≡ Some w → w < length game.now }
    ensures { OnOk result (Appends (W.contents out.old) (W.contents out.new)
        (strategy_text (option_map (identifier game.now) choice))) }
{
    if let Some(w) = choice {
        out.write_all(b" ")?;
        write_number(game.identifier(w), out)?;
    }
    Ok(())
}

/// Returns the choice at `v`, if the winner owns `v`.
#[inline(always)]
fn told_choice(game: &Game, solution: &Solution, v: Vertex) -> Option<Vertex>
    requires whole { length solution.now ≡ length game.now }
    requires vertex { v < length game.now }
    ensures { result ≡ (printed_answer game.now solution.now v).choice }
{
    if is_owned(game, solution.winner(v), v) {
        solution.choice(v)
    } else {
        None
    }
}

/// Appends the line of a vertex. None if it doesn't fit.
#[inline(always)]
fn add_answer(line: &mut ShortLine, game: &Game, solution: &Solution, v: Vertex) -> Option<()>
    requires game { IsGame game.now }
    requires solution { IsSolution game.now solution.now }
    requires vertex { v < length game.now }
    ensures { OnSome result (line.new.items ≡ line.old.items ++ answer_text (printed_line game.now solution.now v)) }
{
    add_number(line, game.identifier(v))?;
    add_winner(line, solution.winner(v))?;
    add_strategy(line, game, told_choice(game, solution, v))?;
    line.try_extend_from_slice(b";\n").ok()
}

/// Writes the line of a vertex, at once if it is short.
#[inline(always)]
fn write_answer<W: Write>(
    game: &Game,
    solution: &Solution,
    v: Vertex,
    out: &mut W,
) -> io::Result<()>
    requires game { IsGame game.now }
    requires solution { IsSolution game.now solution.now }
    requires vertex { v < length game.now }
    ensures { OnOk result (Appends (W.contents out.old) (W.contents out.new)
        (answer_text (printed_line game.now solution.now v))) }
{
    let mut line = ShortLine::new();
    if add_answer(&mut line, game, solution, v).is_some() {
        return out.write_all(line.as_slice());
    }
    write_number(game.identifier(v), out)?;
    write_winner(solution.winner(v), out)?;
    write_strategy(game, told_choice(game, solution, v), out)?;
    out.write_all(b";\n")
}

/// Writes a solution of the game in PGSolver's format: `paritysol N;` with the greatest identifier, then a line for
/// each vertex in rising order of identifiers. The fields of a line are separated by single spaces, it has a strategy
/// if and only if the winner owns the vertex, and a newline follows each `;`. It makes many small writes, so pass a
/// buffered writer.
///
/// It fails only with `Write`, if the writer fails; part of the text may have been written by then.
pub fn write_solution<W: Write>(
    game: &Game,
    solution: &Solution,
    out: &mut W,
) -> Result<(), TextFault>
    // Each vertex that its winner owns has a choice among its successors.
    requires { IsSolution game.now solution.now }
    ensures bytes { OnOk result (Appends (W.contents out.old) (W.contents out.new)
        (solution_text game.now solution.now)) }
    ensures refused { IfErr result (λ fault. fault ≡ TextFault.Write) }
{
    let len = game.len();
    out.write_all(b"paritysol ")?;
    write_number(game.identifier(Vertex((len - 1) as u32)), out)?;
    out.write_all(b";\n")?;
    for v in 0..len {
        write_answer(game, solution, Vertex(v as u32), out)?;
    }
    Ok(())
}
