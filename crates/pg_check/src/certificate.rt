//! Certificates of soundness.

ghost use Rattle.std.specs.Prelude.{◌≡◌, ◌↔◌, ◌<◌, length, IsSome, IsTrue, IfOk, IfErr, IsOkAnd};
ghost use Rattle.pg_arena.specs.Games.{IsGame};
ghost use Rattle.pg_text.specs.Solutions.{IsSolution};
ghost use Rattle.pg_check.specs.Soundness.{IsSound};
ghost use Rattle.pg_check.specs.Verdicts.{IsWins, Refutes};
ghost use Rattle.pg_check.specs.declared.fault.CheckFault.TheVariants.{OutOfMemory};
ghost use Rattle.pg_check.specs.Strategies.{IsCertifiedBy, Certifies};

use crate::checker::check;
use crate::edges::counted;
use crate::fault::CheckFault;
use crate::verdict::Verdict;
use pg_arena::{Game, Player, Vertex};
use pg_map::{Dual, Lines, MeasureMap, View};
use pg_text::Solution;
use std::alloc::Global;

/// Whether two maps certify a solution. The first map must have the vertices and bounds of the game, the second those
/// of its dual; neither has to be closed. The answer is true if and only if two conditions hold: each vertex that Even
/// wins has a list in the first map, and every edge from it that the solution allows leads to a vertex that Even wins
/// and that serves it in the first map; and the same holds for Odd with the second map and the dual. Then the solution
/// is sound. It takes no memory.
pub fn certifies(game: &Game, solution: &Solution, even: &MeasureMap, odd: &MeasureMap) -> bool
    requires solution { IsSolution game.now solution.now }
    requires even_size { length even.now.measures ≡ length game.now }
    requires odd_size { length odd.now.measures ≡ length game.now }
    ensures certifies { IsTrue result ↔ Certifies game.now even.now odd.now solution.now }
    ensures sound { IsTrue result → IsSound game.now solution.now }
{
    let count = game.len() as u32;
    let dual = Dual::of(game);
    for number in 0..count {
        let v = Vertex(number);
        let is_certified = match solution.winner(v) {
            Player::Even => is_certified_by(even, game, game, solution, v),
            Player::Odd => is_certified_by(odd, &dual, game, solution, v),
        };
        if !is_certified {
            return false;
        }
    }
    true
}

/// Whether a solution is sound, with the verdict that `check` gives. If the maps certify the solution, the answer is
/// `Wins`, and the call takes no memory. The maps must meet the condition of `certifies`.
///
/// It fails only with `OutOfMemory`.
pub fn check_with(
    alloc: Global,
    game: &Game,
    solution: &Solution,
    even: &MeasureMap,
    odd: &MeasureMap,
) -> Result<Verdict, CheckFault>
    requires solution { IsSolution game.now solution.now }
    requires even_size { length even.now.measures ≡ length game.now }
    requires odd_size { length odd.now.measures ≡ length game.now }
    ensures wins { IfOk result (λ verdict. IsWins verdict ↔ IsSound game.now solution.now) }
    ensures refutes { IfOk result (Refutes game.now solution.now) }
    ensures err { IfErr result (λ fault. fault ≡ OutOfMemory) }
    ensures certified { Certifies game.now even.now odd.now solution.now → IsOkAnd result IsWins }
{
    if certifies(game, solution, even, odd) {
        return Ok(Verdict::Wins);
    }
    check(alloc, game, solution)
}

/// Whether `v` is certified by a map over the lines.
fn is_certified_by<G: Lines>(
    map: &MeasureMap,
    lines: &G,
    game: &Game,
    solution: &Solution,
    v: Vertex,
) -> bool
    requires game { IsGame game.now }
    requires solution { length solution.now ≡ length game.now }
    requires size { length map.now.measures ≡ length game.now }
    requires within { v < length game.now }
    requires held { IsSome (G.line lines.now v) }
    ensures { IsTrue result ↔ IsCertifiedBy map.now.bounds (G.line lines.now) map.now.measures game.now solution.now v }
{
    let View::List(_) = map.get(v) else {
        return false;
    };
    for w in counted(game, solution, v) {
        if solution.winner(*w) != solution.winner(v) || !map.serves(lines, v, *w) {
            return false;
        }
    }
    true
}
