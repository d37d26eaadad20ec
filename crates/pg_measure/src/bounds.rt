//! The bounds of the components of measures.

ghost use Rattle.std.specs.Prelude.{◌≡◌, ℕ, ◌<◌, ◌≤◌, ◌^◌, List, length, IfOk};
ghost use Rattle.pg_measure.specs.Measures.{AreBounds, width_from};
ghost use Rattle.pg_measure.specs.Games.{IsBoundsOf};
ghost use Rattle.pg_measure.specs.Mirrors.Counts.{IsCount};
ghost use Rattle.pg_measure.specs.Mirrors.Widths.{AreWidths};
ghost use Rattle.pg_arena.specs.Games.{GameVertex, priority, dual};

use crate::row;
use pg_arena::{Game, Vertex};
use std::alloc::{AllocError, Global};
use std::marker::Model;

/// The most priorities for which `width_from` is looked up instead of computed.
const AT_HAND: usize = 1024;

/// The odd priorities of a game in falling order, each with the number of its vertices. In contracts a value of this type is the list of
/// these pairs.
#[derive(Drop)]
pub struct Bounds {
    pairs: Vec<(u32, u32)>,
    widths: Vec<usize>,
}

impl Model for Bounds {
    ghost use Rattle.pg_measure.specs.Measures.{BoundList, AreBounds};
    ghost use Rattle.pg_measure.specs.Mirrors.Widths.{AreWidths};

    ghost Value = { BoundList };

    ghost view = { λ b. b.pairs.items };

    ghost invariant = { λ b. AreBounds b.pairs.items × AreWidths b.pairs.items b.widths.items };
}

impl Bounds {
    /// Returns the bounds of a game: its odd priorities, each with the number of its vertices. Fails only if memory runs out.
    pub fn of(alloc: Global, game: &Game) -> Result<Bounds, AllocError>
        ensures { IfOk result (λ b. IsBoundsOf game.now b) }
    {
        let counts = priority_counts(alloc, game)?;
        Bounds::of_counts(alloc, &counts)
    }

    /// Returns the bounds of the dual of a game, without building the dual. No vertex of a dual has priority 0, and each other priority
    /// has the vertices that have the priority one below it in the game. Fails only if memory runs out.
    pub fn of_dual(alloc: Global, game: &Game) -> Result<Bounds, AllocError>
        ensures { IfOk result (λ b. IsBoundsOf (dual game.now) b) }
    {
        let mut counts = priority_counts(alloc, game)?;
        counts.insert(0, 0)?;
        Bounds::of_counts(alloc, &counts)
    }

    /// Returns the bounds of every game with these numbers of vertices for each priority.
    fn of_counts(alloc: Global, counts: &[u32]) -> Result<Bounds, AllocError>
        requires { length counts.now ≤ 2 ^ 32 }
        ensures { (game : List GameVertex) → IsCount game counts.now → IfOk result (λ b. IsBoundsOf game b) }
    {
        let mut pairs = Vec::new(alloc);
        let mut priority = counts.len();
        while priority > 0 {
            priority -= 1;
            let count = counts[priority];
            if priority % 2 == 1 && count > 0 {
                pairs.push((priority as u32, count))?;
            }
        }
        let widths = first_widths(alloc, &pairs)?;
        Ok(Bounds { pairs, widths })
    }

    /// Returns the bounds with these pairs of a priority and its number of vertices. The priorities must be odd and fall, and each must
    /// have a vertex. Fails only if memory runs out.
    pub fn from_pairs(alloc: Global, pairs: &[(u32, u32)]) -> Result<Bounds, AllocError>
        requires { AreBounds pairs.now }
        ensures { IfOk result (λ b. b ≡ pairs.now) }
    {
        let mut kept = Vec::new(alloc);
        kept.extend_from_slice(pairs)?;
        let widths = first_widths(alloc, pairs)?;
        Ok(Bounds {
            pairs: kept,
            widths,
        })
    }

    /// Returns the pairs of a priority and its number of vertices. The priorities are odd and fall.
    pub fn pairs(&self) -> &[(u32, u32)]
        ensures value { result.now ≡ self.now }
        ensures bounds { AreBounds self.now }
    {
        self.pairs.as_slice()
    }

    /// Returns the number of components for priorities of at least `p`.
    pub fn width_from(&self, p: u32) -> usize
        ensures value { result ≡ width_from self.now p }
        ensures within { result ≤ length self.now }
    {
        let at = p as usize;
        if at < self.widths.len() {
            self.widths[at]
        } else {
            row::width_from(&self.pairs, p)
        }
    }
}

/// Returns for each of the first priorities how many bounds have at least that priority. The list covers the priorities up to the
/// greatest one that has a bound and the one after it, but at most `AT_HAND` priorities.
fn first_widths(alloc: Global, pairs: &[(u32, u32)]) -> Result<Vec<usize>, AllocError>
    requires { AreBounds pairs.now }
    ensures { IfOk result (λ w. AreWidths pairs.now w.items) }
{
    let many = pairs.first().map_or(0, |b| b.0 as usize + 2).min(AT_HAND);
    let mut widths = Vec::with_capacity(alloc, many)?;
    for p in 0..many {
        widths.push(row::width_from(pairs, p as u32))?;
    }
    Ok(widths)
}

/// Returns for each priority up to the greatest how many vertices have it.
fn priority_counts(alloc: Global, game: &Game) -> Result<Vec<u32>, AllocError>
    ensures counts { IfOk result (λ c. IsCount game.now c.items) }
    ensures few { IfOk result (λ c. length c.items ≤ 65537) }
{
    let mut counts = vec![in alloc; 0; greatest_priority(game) as usize + 1]?;
    for number in 0..game.len() {
        let priority = game.priority(Vertex(number as u32)) as usize;
        counts[priority] += 1;
    }
    Ok(counts)
}

/// Returns the greatest priority that occurs, or 0 in a game without vertices.
fn greatest_priority(game: &Game) -> u32
    ensures above_all { (v : ℕ) → v < length game.now → priority game.now v ≤ result }
    ensures within { result ≤ 65536 }
{
    let mut greatest = 0;
    for number in 0..game.len() {
        greatest = greatest.max(game.priority(Vertex(number as u32)));
    }
    greatest
}
