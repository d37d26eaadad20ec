//! Why a worker refuses.

ghost use Rattle.std.specs.Prelude.{◌≡◌};
ghost use Rattle.pg_worker.specs.declared.fault.WorkerFault.TheVariants.{OutOfMemory, Wire};
ghost use Rattle.pg_worker.specs.Faults.{code_of};
ghost use Rattle.pg_worker.specs.Mirrors.Faults.{own_fault};

use pg_wire::WireFault;
use std::alloc::{AllocError, AllocFailed};
use thiserror::Error;

/// Why a worker refuses a request.
#[derive(Clone, Copy, Debug, PartialEq, Eq, Error)]
pub enum WorkerFault {
    /// The allocator refused a growth.
    #[error("out of memory")]
    OutOfMemory,
    /// The vertex to lift is outside the worker's part.
    #[error("the vertex is not of this part")]
    NotMine,
    /// A vertex number isn't below the number of vertices, a measure doesn't fit the bounds, or an odd priority has no
    /// bound.
    #[error("the value does not fit the game")]
    BadUpdate,
    /// A frame comes out of turn, or its vertices don't rise.
    #[error("out of turn")]
    Order,
    /// A frame can't be read or written.
    #[error("{0}")]
    Wire(WireFault),
}

impl WorkerFault {
    /// Returns the code in the report of this fault: 1 to 4 in the order above, or for a fault of a frame its number plus
    /// 10.
    pub fn code(&self) -> u8
        ensures { result ≡ code_of self.now }
    {
        match self {
            WorkerFault::OutOfMemory => 1,
            WorkerFault::NotMine => 2,
            WorkerFault::BadUpdate => 3,
            WorkerFault::Order => 4,
            WorkerFault::Wire(fault) => 10 + fault.number(),
        }
    }
}

/// Returns a frame's fault as a fault of a worker: `OutOfMemory` becomes the worker's own.
pub(crate) fn own(fault: WireFault) -> WorkerFault
    ensures { result ≡ own_fault fault }
{
    match fault {
        WireFault::OutOfMemory => WorkerFault::OutOfMemory,
        _ => WorkerFault::Wire(fault),
    }
}

impl From<AllocError> for WorkerFault {
    ghost from_gives = { λ _ e. e ≡ OutOfMemory };

    fn from(_e: AllocError) -> WorkerFault {
        WorkerFault::OutOfMemory
    }
}

impl<T: Drop> From<AllocFailed<T>> for WorkerFault {
    ghost from_gives = { λ _ e. e ≡ OutOfMemory };

    fn from(_e: AllocFailed<T>) -> WorkerFault {
        WorkerFault::OutOfMemory
    }
}

impl From<WireFault> for WorkerFault {
    ghost from_gives = { λ f e. e ≡ Wire f };

    fn from(fault: WireFault) -> WorkerFault {
        WorkerFault::Wire(fault)
    }
}
