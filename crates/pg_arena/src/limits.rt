//! The limits on games.

/// The greatest priority of a game; the greatest priority of a dual is one more.
pub const MAX_PRIORITY: u32 = 65_535;

/// The greatest number of vertices in a game.
pub const MAX_VERTICES: usize = 1_048_576;

/// The greatest number of edges in a game; a repeated successor counts once.
pub const MAX_EDGES: usize = 8_388_608;
