//! Why lists make no circuit without a cycle.

ghost use Rattle.std.specs.Prelude.{◌≡◌};
ghost use Rattle.pg_aiger_netlist.specs.declared.fault.NetlistFault.TheVariants.{OutOfMemory};

use std::alloc::{AllocError, AllocFailed};
use thiserror::Error;

/// Why lists make no netlist.
#[derive(Clone, Copy, Debug, PartialEq, Eq, Error)]
pub enum NetlistFault {
    /// Memory ran out.
    #[error("out of memory")]
    OutOfMemory,
    /// The literal of an input, a latch or a gate is negated, constant, or of a variable above the greatest.
    #[error("literal {0} defines no variable")]
    NotAVariable(u32),
    /// Inputs, latches and gates define this variable more than once.
    #[error("variable {0} is defined twice")]
    DefinedTwice(u32),
    /// A gate, a latch or an output uses this variable, and nothing defines it.
    #[error("variable {0} is used and not defined")]
    Undefined(u32),
    /// The gate of this variable depends on itself.
    #[error("the gate of variable {0} stands in a cycle")]
    Cycle(u32),
}

impl From<AllocError> for NetlistFault {
    ghost from_gives = { λ _ e. e ≡ OutOfMemory };

    fn from(_e: AllocError) -> NetlistFault {
        NetlistFault::OutOfMemory
    }
}

impl<T: Drop> From<AllocFailed<T>> for NetlistFault {
    ghost from_gives = { λ _ e. e ≡ OutOfMemory };

    fn from(_e: AllocFailed<T>) -> NetlistFault {
        NetlistFault::OutOfMemory
    }
}
