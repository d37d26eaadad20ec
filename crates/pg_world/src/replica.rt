//! The map of a replica: at each vertex the measure of the greatest update of the vertex that the replica took.

ghost use Rattle.std.specs.Prelude.{◌≡◌, ◌<◌, [], All, IfOk, MatchBool, MatchOption, length, map, replicate, slice_index_or, slice_set};
ghost use Rattle.pg_arena.specs.Games.{IsGame, priority, owner, successors};
ghost use Rattle.pg_measure.specs.Measures.{Fits, IsBelow, width_from};
ghost use Rattle.pg_map.specs.Lines.{game_line};
ghost use Rattle.pg_map.specs.Maps.{measure_at, IsServed, IsLeastServing};
ghost use Rattle.pg_map.specs.Mirrors.Tables.{IsBetter, IsBest};
ghost use Rattle.pg_world.specs.Mirrors.Kept.{shown_by, HasZero, ComeFrom};
ghost use Rattle.pg_world.specs.Updates.{update_value};

use pg_arena::{Game, Player, Vertex};
use pg_map::Update;
use pg_measure::{Bounds, Measure};
use std::alloc::{AllocError, Global};

/// The number that stands for no update. No update has this number.
pub(crate) const NO_UPDATE: usize = usize::MAX;

/// The borrowed map of a replica: for each vertex the number of the greatest update of the vertex that the replica took, or
/// `NO_UPDATE` if it took none; then the map shows zeros there.
#[derive(Drop)]
pub(crate) struct ReplicaMap<'a> {
    pub(crate) bounds: &'a Bounds,
    pub(crate) zero: &'a Measure,
    pub(crate) updates: &'a [Update],
    pub(crate) greatest: &'a [usize],
}

impl<'a> ReplicaMap<'a> {
    /// Returns the measure of a vertex.
    pub(crate) fn measure(&self, v: Vertex) -> &'a Measure
        requires v { v < length self.now.greatest.now }
        requires zero { HasZero self.now }
        ensures { result.now.value ≡ measure_at (shown_by self.now) v }
    {
        match self.updates.get(self.greatest[v.0 as usize]) {
            Some(update) => &update.measure,
            None => self.zero,
        }
    }

    /// Returns the measure to which a lift raises a vertex, or None if the vertex is served.
    pub(crate) fn lift(&self, game: &Game, v: Vertex) -> Result<Option<Measure>, AllocError>
        requires game { IsGame game.now }
        requires size { length self.now.greatest.now ≡ length game.now }
        requires v { v < length game.now }
        requires zero { HasZero self.now }
        requires fits { All (Fits self.now.bounds.now) (shown_by self.now) }
        ensures { IfOk result (λ lifted. MatchOption lifted
            (IsServed self.now.bounds.now (game_line game.now) (shown_by self.now) v)
            (λ m. IsLeastServing self.now.bounds.now (game_line game.now) (shown_by self.now) v m.value
            × IsBelow (measure_at (shown_by self.now) v) m.value)) }
    {
        let best = self.best_of(game, v);
        let least = self
            .measure(best)
            .least_step(game.priority(v), self.bounds)?;
        let rises = self.measure(v).cmp(&least).is_lt();
        Ok(if rises { Some(least) } else { None })
    }

    /// Returns the successor that decides about a vertex: the least one for Even, the greatest one for Odd.
    fn best_of(&self, game: &Game, v: Vertex) -> Vertex
        requires game { IsGame game.now }
        requires size { length self.now.greatest.now ≡ length game.now }
        requires v { v < length game.now }
        requires zero { HasZero self.now }
        ensures within { result < length self.now.greatest.now }
        ensures best { IsBest (owner game.now v) (width_from self.now.bounds.now (priority game.now v))
            (shown_by self.now) (successors game.now v) result }
    {
        let owner = game.owner(v);
        let priority = game.priority(v);
        let successors = game.successors(v);
        let mut best = successors[0];
        for w in successors {
            if self.is_better(owner, priority, *w, best) {
                best = *w;
            }
        }
        best
    }

    /// Whether the owner of a vertex with this priority prefers its successor `a` to `b`. If both are alike, the answer may
    /// be either.
    fn is_better(&self, owner: Player, priority: u32, a: Vertex, b: Vertex) -> bool
        requires a { a < length self.now.greatest.now }
        requires b { b < length self.now.greatest.now }
        requires zero { HasZero self.now }
        ensures { MatchBool result
            (IsBetter owner (width_from self.now.bounds.now priority)
            (measure_at (shown_by self.now) a) (measure_at (shown_by self.now) b))
            (IsBetter owner (width_from self.now.bounds.now priority)
            (measure_at (shown_by self.now) b) (measure_at (shown_by self.now) a)) }
    {
        let order = self
            .measure(a)
            .order_from(self.measure(b), priority, self.bounds);
        match owner {
            Player::Even => order.is_lt(),
            Player::Odd => order.is_gt(),
        }
    }
}

/// Returns, for the given numbers of replicas and vertices, that no replica has an update of any vertex.
pub(crate) fn no_updates(
    alloc: Global,
    replicas: usize,
    vertices: usize,
) -> Result<Vec<Vec<usize>>, AllocError>
    ensures { IfOk result (λ g. map (λ x. x.items) g.items ≡ replicate replicas (replicate vertices NO_UPDATE)) }
{
    let mut greatest = Vec::new(alloc);
    for _ in 0..replicas {
        greatest.push(vec![in alloc; NO_UPDATE; vertices]?)?;
    }
    Ok(greatest)
}

/// Sets the update with this number as the greatest one of a vertex at the replica r.
pub(crate) fn set_greatest(greatest: &mut Vec<Vec<usize>>, r: usize, v: Vertex, number: usize)
    requires r { r < length greatest.old.items }
    requires v { v < length (slice_index_or (map (λ g. g.items) greatest.old.items) r []) }
    ensures { map (λ g. g.items) greatest.new.items
        ≡ slice_set (map (λ g. g.items) greatest.old.items) r
        (slice_set (slice_index_or (map (λ g. g.items) greatest.old.items) r []) v number) }
{
    greatest[r][v.0 as usize] = number;
}

/// Clears the numbers of the updates that were taken, which are all numbers that there are.
pub(crate) fn clear(greatest: &mut [usize], updates: &[Update], taken: &[usize])
    requires taken { All (λ n. n < length updates.now) taken.now }
    requires vertices { All (λ u. u.vertex < length greatest.old) updates.now }
    requires from { ComeFrom (map update_value updates.now) taken.now greatest.old }
    ensures { greatest.new ≡ replicate (length greatest.old) NO_UPDATE }
{
    for number in taken {
        let v = updates[*number].vertex;
        greatest[v.0 as usize] = NO_UPDATE;
    }
}
