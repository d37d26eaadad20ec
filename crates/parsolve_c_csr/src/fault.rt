//! Why arrays are refused.

ghost use Rattle.std.specs.Prelude.{◌≡◌};
ghost use Rattle.parsolve_c_csr.specs.declared.fault.ArraysFault.TheVariants.{OutOfMemory, Game};

use std::alloc::AllocError;
use thiserror::Error;

/// Why arrays spell no game: the first fault, by the lengths first and then vertex by vertex. The numbers are vertices.
#[derive(Clone, Copy, Debug, PartialEq, Eq, Error)]
pub enum GameFault {
    /// There isn't one owner for each priority, or not one start more than priorities.
    #[error("the arrays' lengths don't fit together")]
    Lengths,
    /// There is no priority.
    #[error("no vertex")]
    NoVertex,
    /// More than 1,048,576 priorities.
    #[error("more than 1048576 vertices")]
    TooManyVertices,
    /// More than 8,388,608 successors.
    #[error("more than 8388608 edges")]
    TooManyEdges,
    /// A priority over 65,535.
    #[error("vertex {0} has a priority over 65535")]
    PriorityTooLarge(u32),
    /// An owner other than 0 and 1.
    #[error("vertex {0} has an owner other than 0 and 1")]
    BadOwner(u32),
    /// A start that is over the next one, or a next start over the number of successors.
    #[error("the successors of vertex {0} end before they start, or past the array")]
    BadStart(u32),
    /// A start that equals the next one.
    #[error("vertex {0} has no successor")]
    NoSuccessor(u32),
    /// A successor that is no vertex.
    #[error("vertex {0} has a successor that is no vertex")]
    UnknownSuccessor(u32),
}

/// Why a call has no answer. The numbers are vertices.
#[derive(Clone, Copy, Debug, PartialEq, Eq, Error)]
pub enum ArraysFault {
    /// Memory ran out.
    #[error("out of memory")]
    OutOfMemory,
    /// The arrays spell no game.
    #[error("{0}")]
    Game(GameFault),
    /// There isn't one winner and one number of the strategy for each priority.
    #[error("the lengths of the solution aren't the number of vertices")]
    SolutionLengths,
    /// A winner other than 0 and 1.
    #[error("vertex {0} has a winner other than 0 and 1")]
    BadWinner(u32),
    /// The winner owns the vertex, and its number in the strategy isn't a successor.
    #[error("the strategy at vertex {0} isn't a successor")]
    BadChoice(u32),
}

impl From<AllocError> for ArraysFault {
    ghost from_gives = { λ _ e. e ≡ OutOfMemory };

    fn from(_e: AllocError) -> ArraysFault {
        ArraysFault::OutOfMemory
    }
}

impl From<GameFault> for ArraysFault {
    ghost from_gives = { λ fault e. e ≡ Game fault };

    fn from(fault: GameFault) -> ArraysFault {
        ArraysFault::Game(fault)
    }
}
