//! Events.

use pg_arena::Vertex;

/// An event in a world. Replica 0 is the coordinator, and replicas 1, 2, .. are the workers.
#[derive(Clone, Copy, Debug, PartialEq, Eq)]
pub enum Event {
    /// The worker lifts a vertex of its part, in its own map.
    Lift(u32, Vertex),
    /// The replica takes the update with this number; updates are numbered from 0 as they are made.
    Deliver(u32, usize),
    /// The worker starts anew, as if it had taken nothing.
    Restart(u32),
    /// The coordinator lifts a vertex, in its own map.
    CoordinatorLift(Vertex),
}
