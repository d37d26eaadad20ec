//! The coordinator's map.

ghost use Rattle.std.specs.Prelude.{◌≡◌, ◌<◌, List, length, IfOk, All, true, false, ◌||◌};
ghost use Rattle.std.specs.Bool.{OnTrue, OnFalse};
ghost use Rattle.pg_measure.specs.Measures.{MeasureValue, Fits, AtMost};
ghost use Rattle.pg_measure.specs.Views.{measure_in};
ghost use Rattle.pg_map.specs.Lines.{game_line};
ghost use Rattle.pg_map.specs.Maps.{measure_at, IsMap, MapAtMost, IsServed, IsLifted, StaysUnder};
ghost use Rattle.pg_map.specs.Weights.{map_weight};

use pg_arena::{Game, Vertex};
use pg_coord_partition::VertexSet;
use pg_map::{MeasureMap, View};
use std::alloc::{AllocError, Global};

/// The coordinator's map, and which of its vertices rose in the last round.
#[derive(Drop)]
pub struct CoordinatorMap {
    pub map: MeasureMap,
    pub risen: VertexSet,
    /// Whether a vertex rose since `begin`, or might rise in the first round.
    pub rose: bool,
    /// Whether the vertices that rose were lifted here.
    pub by_lifts: bool,
    /// Whether a round has begun.
    pub has_begun: bool,
    ghost sized: { risen.count ≡ length map.measures },
    ghost within: { All (λ v. v < length map.measures) risen.vertices },
}

/// Lists a vertex if it rose.
fn list_if(rose: bool, risen: &mut VertexSet, v: Vertex)
    requires { v < risen.old.count }
    ensures count { risen.new.count ≡ risen.old.count }
    ensures within { All (λ u. u < risen.old.count) risen.old.vertices → All (λ u. u < risen.old.count) risen.new.vertices }
{
    if rose {
        risen.add(v);
    }
}

impl CoordinatorMap {
    ghost use Rattle.pg_coord_rounds.specs.Mirrors.CoordinatorMaps.{Moves};

    /// Makes the coordinator's map before the first round. It takes all the memory that this map ever needs.
    pub fn new(alloc: Global, map: MeasureMap) -> Result<CoordinatorMap, AllocError>
        ensures map { IfOk result (λ b. b.map ≡ map) }
        ensures fits { IsMap map.bounds (length map.measures) map.measures }
        ensures rose { IfOk result (λ b. b.rose ≡ true) }
    {
        let risen = VertexSet::new(alloc, map.len())?;
        Ok(CoordinatorMap {
            map,
            risen,
            rose: true,
            by_lifts: false,
            has_begun: false,
        })
    }

    /// Begins a round, in which no vertex rose yet.
    pub fn begin(&mut self)
        ensures map { self.new.map ≡ self.old.map }
        ensures rose { self.new.rose ≡ false }
    {
        self.risen.clear();
        self.rose = false;
        self.by_lifts = false;
        self.has_begun = true;
    }

    /// Raises the measure of a vertex to at least `m`.
    pub fn raise(&mut self, v: Vertex, m: View)
        requires v { v < length self.old.map.measures }
        requires fits { Fits self.old.map.bounds (measure_in m) }
        ensures moves { Moves self.old self.new }
        ensures above { AtMost (measure_in m.entry) (measure_at self.new.map.measures v) }
        ensures least { (h : List MeasureValue) → MapAtMost self.old.map.measures h
            → AtMost (measure_in m.entry) (measure_at h v) → MapAtMost self.new.map.measures h }
    {
        let rose = self.map.raise(v, m);
        list_if(rose, &mut self.risen, v);
        self.rose |= rose;
    }

    /// Lifts a vertex of the game. Returns true if and only if it rose.
    pub fn lift(&mut self, game: &Game, v: Vertex) -> bool
        requires size { length self.old.map.measures ≡ length game.now }
        requires v { v < length game.now }
        ensures bounds { self.new.map.bounds ≡ self.old.map.bounds }
        ensures map { IsMap self.old.map.bounds (length self.old.map.measures) self.new.map.measures }
        ensures lifted { OnTrue result (IsLifted self.old.map.bounds
            (game_line game.now) self.old.map.measures self.new.map.measures v) }
        ensures served { OnFalse result (IsServed self.old.map.bounds (game_line game.now) self.old.map.measures v) }
        ensures same { OnFalse result (self.new.map ≡ self.old.map) }
        ensures under { StaysUnder self.old.map.bounds (game_line game.now) self.old.map.measures self.new.map.measures }
        ensures weight { OnTrue result (map_weight self.old.map.bounds self.new.map.measures
            < map_weight self.old.map.bounds self.old.map.measures) }
        ensures rose { self.new.rose ≡ (self.old.rose || result) }
    {
        pg_map::laws::game_lines();
        // called for the facts about the game in its contract
        let _vertices = game.len();
        let rose = self.map.lift(game, v);
        list_if(rose, &mut self.risen, v);
        self.rose |= rose;
        self.by_lifts |= rose;
        rose
    }
}
