//! The task that is solved.

ghost use Rattle.std.specs.Prelude.{◌≡◌, ◌≤◌, length, IfOk};
ghost use Rattle.pg_measure.specs.Games.{IsBoundsOf};

use crate::subscribers::Subscribers;
use pg_arena::Game;
use pg_coord_partition::Cut;
use pg_measure::Bounds;
use std::alloc::{AllocError, Global};
use std::marker::Model;

/// A game that is cut among workers, the bounds of its measures, and the greatest number of lifts that a worker makes in a
/// turn.
#[derive(Drop)]
pub struct Task<'a> {
    alloc: Global,
    game: &'a Game,
    cut: &'a Cut,
    bounds: Bounds,
    subscribers: Subscribers,
    budget: u32,
}

impl<'a> Model for Task<'a> {
    ghost use Rattle.pg_coord_rounds.specs.Mirrors.Tasks.{TaskValue, IsTask};

    ghost Value = { TaskValue };

    ghost view = { λ t. record { game = t.game.now; cut = t.cut.now; bounds = t.bounds } };

    ghost invariant = { λ t. IsTask (record { game = t.game.now; cut = t.cut.now; bounds = t.bounds }) };
}

impl<'a> Task<'a> {
    ghost use Rattle.pg_coord_rounds.specs.Mirrors.Tasks.{IsTask};

    /// Makes the task of a game with this cut and its bounds.
    pub fn new(
        alloc: Global,
        game: &'a Game,
        cut: &'a Cut,
        bounds: &Bounds,
        budget: u32,
    ) -> Result<Task<'a>, AllocError>
        requires cut { length cut.now.numbers ≡ length game.now }
        requires bounds { IsBoundsOf game.now bounds.now }
        ensures game { IfOk result (λ t. t.game ≡ game.now) }
        ensures cut { IfOk result (λ t. t.cut ≡ cut.now) }
        ensures bounds { IfOk result (λ t. t.bounds ≡ bounds.now) }
    {
        pg_measure::laws::bounds_are_few();
        pg_map::laws::game_lines();
        // called for the facts about the game in its contract
        let _vertices = game.len();
        let bounds = Bounds::from_pairs(alloc, bounds.pairs())?;
        let subscribers = Subscribers::of(alloc, game, cut)?;
        Ok(Task {
            alloc,
            game,
            cut,
            bounds,
            subscribers,
            budget,
        })
    }

    /// Returns the allocator.
    pub fn alloc(&self) -> Global {
        self.alloc
    }

    /// Returns the game.
    pub fn game(&self) -> &Game
        ensures value { result.now ≡ self.now.game }
        ensures task { IsTask self.now }
    {
        self.game
    }

    /// Returns the cut: which worker each vertex belongs to.
    pub fn cut(&self) -> &Cut
        ensures value { result.now ≡ self.now.cut }
        ensures task { IsTask self.now }
    {
        self.cut
    }

    /// Returns the bounds of the game.
    pub fn bounds(&self) -> &Bounds
        ensures { result.now ≡ self.now.bounds }
    {
        &self.bounds
    }

    /// Returns the number of bounds, at most 32,768.
    pub fn width(&self) -> u32
        ensures value { result ≡ length self.now.bounds }
        ensures few { result ≤ 32768 }
        ensures task { IsTask self.now }
    {
        pg_wire::laws::few_bounds();
        self.bounds.pairs().len() as u32
    }

    /// Returns the workers that need to know each vertex's measure.
    pub fn subscribers(&self) -> &Subscribers {
        &self.subscribers
    }

    /// Returns the greatest number of lifts that a worker makes in a turn.
    pub fn budget(&self) -> u32 {
        self.budget
    }
}
