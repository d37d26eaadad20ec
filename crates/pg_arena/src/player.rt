//! The two players.

ghost use Rattle.std.specs.Prelude.{◌≡◌};
ghost use Rattle.pg_arena.specs.Games.{opponent};

/// A player, who owns or wins vertices: Even is player 0 of PGSolver's format, Odd is player 1.
#[derive(Clone, Copy, Debug, PartialEq, Eq)]
pub enum Player {
    Even,
    Odd,
}

impl Player {
    /// Returns the other player.
    pub fn opponent(self) -> Player
        ensures { result ≡ opponent self }
    {
        match self {
            Player::Even => Player::Odd,
            Player::Odd => Player::Even,
        }
    }
}
