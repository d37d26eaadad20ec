//! Makes solutions from measures.

ghost use Rattle.std.specs.Prelude.{◌≡◌, ℕ, None, length, Contains, IsSome, IfSome, IfNone, IfOk, IfErr};
ghost use Rattle.std.specs.List.Sorted.{IsStrictlyIncreasing};
ghost use Rattle.pg_arena.specs.declared.player.Player.TheVariants.{Even, Odd};
ghost use Rattle.pg_map.specs.Lines.{AreWithin, line_at};
ghost use Rattle.pg_map.specs.Maps.{IsServedBy, IsFirstServing};
ghost use Rattle.pg_text.specs.Solutions.{IsSolution};
ghost use Rattle.pg_check.specs.Soundness.{IsSound};
ghost use Rattle.pg_check.specs.Strategies.{AreClosed, IsSolutionOf, StrategiesFail};

use crate::fault::CheckFault;
use pg_arena::{Game, Player, Vertex};
use pg_map::{Dual, Lines, Measures};
use pg_text::Solution;
use std::alloc::Global;

/// Makes a solution from a closed map of the game and a closed map of its dual, which need not be the least. Even wins
/// the vertices that have a list in the first map, and Odd those that have one in the second. At a vertex that the
/// winner owns, the choice is the successor with the least identifier that serves the vertex in the winner's map. The
/// solution is sound.
///
/// It fails with `Undecided`, for the least identifier at which both maps have top, if and only if there is one, and
/// with `OutOfMemory` if memory runs out.
pub fn strategies<E: Measures, O: Measures>(
    alloc: Global,
    game: &Game,
    even: &E,
    odd: &O,
) -> Result<Solution, CheckFault>
    requires even_size { length (E.map even.now).measures ≡ length game.now }
    requires odd_size { length (O.map odd.now).measures ≡ length game.now }
    requires closed { AreClosed game.now (E.map even.now) (O.map odd.now) }
    ensures solution { IfOk result (IsSolutionOf game.now (E.map even.now) (O.map odd.now)) }
    ensures choices { IfOk result (IsSolution game.now) }
    ensures sound { IfOk result (IsSound game.now) }
    ensures fault { IfErr result (StrategiesFail game.now (E.map even.now) (O.map odd.now)) }
{
    let dual = Dual::of(game);
    let mut solution = Solution::new(alloc, game)?;
    for number in 0..game.len() as u32 {
        let v = Vertex(number);
        if !even.is_top(v) {
            solution.set(v, Player::Even, choice_at(even, game, v));
        } else if !odd.is_top(v) {
            solution.set(v, Player::Odd, choice_at(odd, &dual, v));
        } else {
            return Err(CheckFault::Undecided(game.identifier(v)));
        }
    }
    Ok(solution)
}

/// Returns the choice of the player whose lines these are at a vertex. At a vertex of its own, which Even owns in the lines, that
/// is the first successor that serves the vertex; elsewhere there is none.
fn choice_at<M: Measures, G: Lines>(map: &M, lines: &G, v: Vertex) -> Option<Vertex>
    requires held { IsSome (G.line lines.now v) }
    requires within { AreWithin (length (M.map map.now).measures) (G.line lines.now) }
    requires rising { IsStrictlyIncreasing (line_at (G.line lines.now) v).successors }
    ensures first { IfSome result (IsFirstServing (M.map map.now).bounds (G.line lines.now) (M.map map.now).measures v) }
    ensures none { IfNone result ((line_at (G.line lines.now) v).owner ≡ Even
        → (w : ℕ) → Contains (line_at (G.line lines.now) v).successors w
        → ¬ IsServedBy (M.map map.now).bounds (G.line lines.now) (M.map map.now).measures v w) }
    ensures elsewhere { (line_at (G.line lines.now) v).owner ≡ Odd → result ≡ None }
{
    match lines.owner(v) {
        Player::Even => map.first_serving(lines, v),
        Player::Odd => None,
    }
}
