//! Cycles of edges that count, seen from a vertex of their greatest priority.

ghost use Rattle.std.specs.Prelude.{◌≡◌, ◌↔◌, ◌+◌, ◌<◌, true, false, [], ◌∷◌, ◌++◌, length, replicate, set};
ghost use Rattle.std.specs.Prelude.{IsTrue, IfOk, IfSome, IfNone};
ghost use Rattle.std.specs.Bool.{OnTrue, OnFalse};
ghost use Rattle.pg_arena.specs.Games.{IsGame, IsWithinLimits};
ghost use Rattle.pg_check.specs.Mirrors.Cycles.{HasNoCycle, IsSimpleCycle, IsTrail, IsLost};
ghost use Rattle.pg_check.specs.Mirrors.Searches.{IsExplored};

use crate::edges::counted;
use pg_arena::{Game, Player, Vertex};
use pg_text::Solution;
use std::alloc::{AllocError, Global};

/// Vertices in the order in which a search reached them, the place of the one before each, and the place of the one that closes the
/// cycle.
#[derive(Drop)]
pub(crate) struct Trail {
    reached: Vec<Vertex>,
    before: Vec<u32>,
    end: usize,
}

/// Whether the priority of `v` has the parity of the player who loses there.
pub(crate) fn is_lost(game: &Game, solution: &Solution, v: Vertex) -> bool
    requires whole { length solution.now ≡ length game.now }
    requires within { v < length game.now }
    ensures { IsTrue result ↔ IsLost game.now solution.now v }
{
    let remainder = match solution.winner(v) {
        Player::Even => 1,
        Player::Odd => 0,
    };
    game.priority(v) % 2 == remainder
}

/// A breadth-first search: the vertices that it has reached, the place of the one before each, and for each vertex of the game
/// whether it is reached.
#[derive(Drop)]
struct Exploration {
    reached: Vec<Vertex>,
    before: Vec<u32>,
    is_reached: Vec<bool>,
}

impl Exploration {
    /// Begins a search among `count` vertices, which has reached only `v`.
    fn new(alloc: Global, count: usize, v: Vertex) -> Result<Exploration, AllocError>
        requires { v < count }
        ensures reached { IfOk result (λ search. search.reached.items ≡ v ∷ []) }
        ensures before { IfOk result (λ search. search.before.items ≡ 0 ∷ []) }
        ensures flags { IfOk result (λ search. search.is_reached.items ≡ set (replicate count false) v true) }
    {
        let mut reached = Vec::new(alloc);
        reached.push(v)?;
        let mut before = Vec::new(alloc);
        before.push(0)?;
        let mut is_reached = vec![in alloc; false; count]?;
        is_reached[v.0 as usize] = true;
        Ok(Exploration {
            reached,
            before,
            is_reached,
        })
    }

    /// Reaches a vertex from the one at a place.
    #[inline(always)]
    fn reach(&mut self, w: Vertex, at: usize) -> Result<(), AllocError>
        requires within { w < length self.old.is_reached.items }
        requires few { at < 4294967296 }
        ensures reached { IfOk result (λ _. self.new.reached.items ≡ self.old.reached.items ++ w ∷ []) }
        ensures before { IfOk result (λ _. self.new.before.items ≡ self.old.before.items ++ at ∷ []) }
        ensures flags { IfOk result (λ _. self.new.is_reached.items ≡ set self.old.is_reached.items w true) }
    {
        self.is_reached[w.0 as usize] = true;
        self.reached.push(w)?;
        self.before.push(at as u32)?;
        Ok(())
    }

    /// Follows the edges that count from the vertex at a place through priorities up to that of `v`. Returns whether one leads back
    /// to `v`.
    fn visit(
        &mut self,
        game: &Game,
        solution: &Solution,
        v: Vertex,
        at: usize,
    ) -> Result<bool, AllocError>
        requires game { IsGame game.now }
        requires limits { IsWithinLimits game.now }
        requires whole { length solution.now ≡ length game.now }
        requires within { v < length game.now }
        requires at { at < length self.old.reached.items }
        requires explored { IsExplored game.now solution.now v
            self.old.reached.items self.old.before.items self.old.is_reached.items at }
        ensures closes { IfOk result (λ closes. OnTrue closes
            (IsTrail game.now solution.now v self.new.reached.items self.new.before.items at)) }
        ensures explored { IfOk result (λ closes. OnFalse closes (IsExplored game.now solution.now v
            self.new.reached.items self.new.before.items self.new.is_reached.items (at + 1))) }
    {
        let u = self.reached[at];
        for w in counted(game, solution, u) {
            if *w == v {
                return Ok(true);
            }
            if !self.is_reached[w.0 as usize] && game.priority(*w) <= game.priority(v) {
                self.reach(*w, at)?;
            }
        }
        Ok(false)
    }
}

/// Searches breadth-first from `v`, by edges that count and through priorities up to its own, for an edge back to `v`.
fn explore(
    alloc: Global,
    game: &Game,
    solution: &Solution,
    v: Vertex,
) -> Result<Option<Trail>, AllocError>
    requires whole { length solution.now ≡ length game.now }
    requires within { v < length game.now }
    ensures none { IfOk result (λ found. IfNone found (HasNoCycle game.now solution.now v)) }
    ensures some { IfOk result (λ found. IfSome found
        (λ trail. IsTrail game.now solution.now v trail.reached.items trail.before.items trail.end)) }
{
    let mut search = Exploration::new(alloc, game.len(), v)?;
    let mut at = 0;
    while at < search.reached.len() {
        if search.visit(game, solution, v, at)? {
            return Ok(Some(Trail {
                reached: search.reached,
                before: search.before,
                end: at,
            }));
        }
        at += 1;
    }
    Ok(None)
}

/// Returns a cycle of edges that count through `v` on which no priority is greater than that of `v`, if there is one. It begins
/// with `v`.
pub(crate) fn cycle_through(
    alloc: Global,
    game: &Game,
    solution: &Solution,
    v: Vertex,
) -> Result<Option<Vec<Vertex>>, AllocError>
    requires whole { length solution.now ≡ length game.now }
    requires within { v < length game.now }
    ensures none { IfOk result (λ found. IfNone found (HasNoCycle game.now solution.now v)) }
    ensures some { IfOk result (λ found. IfSome found (λ cycle. IsSimpleCycle game.now solution.now v cycle.items)) }
{
    let Some(trail) = explore(alloc, game, solution, v)? else {
        return Ok(None);
    };
    let mut cycle = Vec::new(alloc);
    let mut place = trail.end;
    while place > 0 {
        cycle.push(trail.reached[place])?;
        place = trail.before[place] as usize;
    }
    cycle.push(v)?;
    cycle.reverse();
    Ok(Some(cycle))
}
