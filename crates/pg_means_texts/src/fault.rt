//! Why there is no verdict on two texts.

ghost use Rattle.std.specs.Prelude.{◌≡◌};

use pg_hoa::HoaFault;
use pg_ltl::FormulaFault;
use pg_means::MeansFault;
use std::alloc::AllocError;
use thiserror::Error;

/// Why there is no verdict on two texts. If memory runs out, the fault inside says so.
#[derive(Clone, Copy, Debug, PartialEq, Eq, Error)]
pub enum CompareFault {
    /// The first text spells no automaton, or memory ran out while it was read.
    #[error("{0}")]
    Hoa(HoaFault),
    /// The second text spells no formula, or memory ran out while it was read.
    #[error("{0}")]
    Formula(FormulaFault),
    /// The automaton and the formula have more than 16 propositions together.
    #[error("more than 16 propositions")]
    TooManyPropositions,
    /// There is no verdict on the automaton and the formula, or memory ran out.
    #[error("{0}")]
    Means(MeansFault),
}

impl From<HoaFault> for CompareFault {
    ghost use Rattle.pg_means_texts.specs.declared.fault.CompareFault.TheVariants as faults;

    ghost from_gives = { λ fault e. e ≡ faults.Hoa fault };

    fn from(fault: HoaFault) -> CompareFault {
        CompareFault::Hoa(fault)
    }
}

impl From<FormulaFault> for CompareFault {
    ghost use Rattle.pg_means_texts.specs.declared.fault.CompareFault.TheVariants as faults;

    ghost from_gives = { λ fault e. e ≡ faults.Formula fault };

    fn from(fault: FormulaFault) -> CompareFault {
        CompareFault::Formula(fault)
    }
}

impl From<MeansFault> for CompareFault {
    ghost use Rattle.pg_means_texts.specs.declared.fault.CompareFault.TheVariants as faults;

    ghost from_gives = { λ fault e. e ≡ faults.Means fault };

    fn from(fault: MeansFault) -> CompareFault {
        CompareFault::Means(fault)
    }
}

impl From<AllocError> for CompareFault {
    ghost use Rattle.pg_means.specs.declared.fault.MeansFault.TheVariants as means;
    ghost use Rattle.pg_means_texts.specs.declared.fault.CompareFault.TheVariants as faults;

    ghost from_gives = { λ _ e. e ≡ faults.Means means.OutOfMemory };

    fn from(_e: AllocError) -> CompareFault {
        CompareFault::Means(MeansFault::OutOfMemory)
    }
}
