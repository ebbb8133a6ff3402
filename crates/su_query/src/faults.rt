//! Why a text is no statement, or a statement's names are not found.
ghost use Rattle.std.specs.Prelude.{◌≡◌};
ghost use Rattle.su_query.specs.declared.faults.QueryFault.TheVariants.{NoMemory as OutOfMemory};

use std::alloc::{AllocError, AllocFailed};
use su_base::{Kind, NoMemory, Str};
use thiserror::Error;

/// Why a text is no statement, or a statement's names are not found.
#[derive(Debug, Drop, Error)]
pub enum QueryFault {
    /// The text is of no form of the grammar.
    #[error("the text is no statement")]
    Syntax,
    /// There is more of something than there may be.
    #[error("a limit is passed")]
    Limit(QueryLimit),
    #[error("memory could not be had")]
    NoMemory,
    /// No attribute has the name.
    #[error("the attribute is not known")]
    Unknown(Str),
    /// The two sides of a comparison are of different kinds.
    #[error("the kinds of the two sides differ")]
    Kinds { left: Kind, right: Kind },
    /// No column of the relation has the name.
    #[error("the column is not known")]
    UnknownColumn(Str),
}

/// Of what there may not be more.
#[derive(Clone, Copy, PartialEq, Eq, Debug)]
pub enum QueryLimit {
    /// 64: in some front of the statement there are over 64 more `(` than `)`. A `)` without a partner
    /// counts too.
    Nesting,
    /// 8 tuple variables, the blank one among them where it occurs.
    Variables,
    /// 128 outputs.
    Outputs,
    /// 256 comparisons.
    Comparisons,
}

impl From<NoMemory> for QueryFault {
    ghost from_gives = { λ _ fault. fault ≡ OutOfMemory };

    fn from(_: NoMemory) -> QueryFault {
        QueryFault::NoMemory
    }
}

impl From<AllocError> for QueryFault {
    ghost from_gives = { λ _ fault. fault ≡ OutOfMemory };

    fn from(_: AllocError) -> QueryFault {
        QueryFault::NoMemory
    }
}

impl<T: Drop> From<(T, NoMemory)> for QueryFault {
    ghost from_gives = { λ _ fault. fault ≡ OutOfMemory };

    fn from(_: (T, NoMemory)) -> QueryFault {
        QueryFault::NoMemory
    }
}
