//! A vertex as games and builders keep it.

ghost use Rattle.std.specs.Prelude.{◌≡◌, ◌≤◌};
ghost use Rattle.pg_arena.specs.Mirrors.Entries.{dual_entry};

use crate::limits::MAX_PRIORITY;
use crate::player::Player;

/// A vertex without its identifier and its name. Its successors are at the places from `from` up to `to` in a list of
/// all successors.
#[derive(Clone, Copy)]
pub(crate) struct Entry {
    pub priority: u32,
    pub owner: Player,
    pub from: u32,
    pub to: u32,
}

impl Entry {
    /// Returns the vertex with the other player as its owner and its priority raised by one.
    pub fn dual(self) -> Entry
        requires { self.priority ≤ MAX_PRIORITY }
        ensures { result ≡ dual_entry self }
    {
        Entry {
            priority: self.priority + 1,
            owner: self.owner.opponent(),
            from: self.from,
            to: self.to,
        }
    }
}
