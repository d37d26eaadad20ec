//! Endless plays.

ghost use Rattle.std.specs.Prelude.{ℕ, List};
ghost use Rattle.pg_arena.specs.Games.{GameVertex, IsEdge};
ghost use Rattle.pg_check.specs.Plays.{IsPlay};

/// A play of a game. It is endless, so it has no code: only contracts name its vertices.
pub trait Play {
    /// The game.
    ghost game: { Self → List GameVertex };

    /// The vertex at each step number, from 0.
    ghost vertex: { Self → ℕ → ℕ };

    /// Each vertex is a successor of the one before it.
    ghost goes_on: { (play : Self) → IsPlay (IsEdge (game play)) (vertex play) };
}
