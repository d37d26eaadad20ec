//! Why a game is refused.

ghost use Rattle.std.specs.Prelude.{◌≡◌};
ghost use Rattle.pg_arena.specs.declared.fault.ArenaFault.TheVariants.{OutOfMemory};

use std::alloc::{AllocError, AllocFailed};
use std::error::Error;
use std::fmt;

/// Why lines make no game. Numbers are identifiers, except for the second one of `PriorityTooLarge`.
#[derive(Clone, Copy, Debug, PartialEq, Eq)]
pub enum ArenaFault {
    /// Memory ran out.
    OutOfMemory,
    /// A second line has this identifier.
    DuplicateVertex(u32),
    /// The line with this identifier has no successor.
    NoSuccessor(u32),
    /// The line of the first identifier has the second as a successor, which no line defines.
    UnknownSuccessor(u32, u32),
    /// There are already 1,048,576 lines.
    TooManyVertices,
    /// With the successors of this line, each counted once, there would be more than 8,388,608 edges.
    TooManyEdges,
    /// The line with this identifier has a priority over 65,535, the second number.
    PriorityTooLarge(u32, u32),
    /// No line was added.
    NoVertex,
}

impl fmt::Display for ArenaFault {
    ghost use Rattle.std.specs.Prelude.{Some};
    ghost use Rattle.pg_arena.specs.FaultTexts.{fault_text};

    ghost output = { λ fault. Some (fault_text fault) };

    fn fmt<W: fmt::Write>(&self, f: &mut fmt::Formatter<W>) -> fmt::Result {
        match self {
            ArenaFault::OutOfMemory => f.write_str("out of memory"),
            ArenaFault::DuplicateVertex(id) => write!(f, "vertex {id} is defined twice"),
            ArenaFault::NoSuccessor(id) => write!(f, "vertex {id} has no successor"),
            ArenaFault::UnknownSuccessor(id, successor) => {
                write!(
                    f,
                    "vertex {id} has successor {successor}, which no line defines"
                )
            }
            ArenaFault::TooManyVertices => f.write_str("more than 1048576 vertices"),
            ArenaFault::TooManyEdges => f.write_str("more than 8388608 edges"),
            ArenaFault::PriorityTooLarge(id, priority) => {
                write!(f, "vertex {id} has priority {priority}, the limit is 65535")
            }
            ArenaFault::NoVertex => f.write_str("no vertex"),
        }
    }
}

impl Error for ArenaFault {}

impl From<AllocError> for ArenaFault {
    ghost from_gives = { λ _ e. e ≡ OutOfMemory };

    fn from(_e: AllocError) -> ArenaFault {
        ArenaFault::OutOfMemory
    }
}

impl<T: Drop> From<AllocFailed<T>> for ArenaFault {
    ghost from_gives = { λ _ e. e ≡ OutOfMemory };

    fn from(_e: AllocFailed<T>) -> ArenaFault {
        ArenaFault::OutOfMemory
    }
}
