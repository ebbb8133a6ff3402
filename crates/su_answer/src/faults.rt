//! Why a query is not answered.
ghost use Rattle.std.specs.Prelude.{◌≡◌};
ghost use Rattle.su_answer.specs.declared.faults.AnswerFault.TheVariants.{NoMemory as OutOfMemory};

use std::alloc::AllocError;
use su_base::NoMemory;
use thiserror::Error;

/// Why a query is not answered.
#[derive(Debug, Drop, Error)]
pub enum AnswerFault {
    /// The answer has more than 1,000,000 rows.
    #[error("the answer has too many rows")]
    Limit,
    #[error("memory could not be had")]
    NoMemory,
}

impl From<NoMemory> for AnswerFault {
    ghost from_gives = { λ _ fault. fault ≡ OutOfMemory };

    fn from(_: NoMemory) -> AnswerFault {
        AnswerFault::NoMemory
    }
}

impl From<AllocError> for AnswerFault {
    ghost from_gives = { λ _ fault. fault ≡ OutOfMemory };

    fn from(_: AllocError) -> AnswerFault {
        AnswerFault::NoMemory
    }
}
