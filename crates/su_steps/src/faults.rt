//! Why a query gets no terms.
ghost use Rattle.std.specs.Prelude.{◌≡◌};
ghost use Rattle.su_steps.specs.declared.faults.StepFault.TheVariants.{NoMemory as OutOfMemory};

use std::alloc::{AllocError, AllocFailed};
use su_base::{AttrSet, NoMemory, Str};

/// Why a query gets no terms.
#[derive(Drop)]
pub enum StepFault {
    /// No maximal object covers the variable, the first such one, which is mentioned with these
    /// attributes.
    NotCovered {
        variable: Option<Str>,
        mentioned: AttrSet,
    },
    /// There is more of something than there may be.
    Limit(StepLimit),
    NoMemory,
}

/// Of what there may not be more.
#[derive(Clone, Copy, PartialEq, Eq, Debug)]
pub enum StepLimit {
    /// 64 disjuncts.
    Disjuncts,
    /// 64 rows in some choice.
    Rows,
    /// 256 terms, those that turn out void counted.
    Terms,
}

impl From<NoMemory> for StepFault {
    ghost from_gives = { λ _ fault. fault ≡ OutOfMemory };

    fn from(_: NoMemory) -> StepFault {
        StepFault::NoMemory
    }
}

impl From<AllocError> for StepFault {
    ghost from_gives = { λ _ fault. fault ≡ OutOfMemory };

    fn from(_: AllocError) -> StepFault {
        StepFault::NoMemory
    }
}

impl<T: Drop> From<AllocFailed<T>> for StepFault {
    ghost from_gives = { λ _ fault. fault ≡ OutOfMemory };

    fn from(_: AllocFailed<T>) -> StepFault {
        StepFault::NoMemory
    }
}

impl<T: Drop> From<(T, NoMemory)> for StepFault {
    ghost from_gives = { λ _ fault. fault ≡ OutOfMemory };

    fn from(_: (T, NoMemory)) -> StepFault {
        StepFault::NoMemory
    }
}
