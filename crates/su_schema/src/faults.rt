//! Why a definition is refused.
ghost use Rattle.std.specs.Prelude.{◌≡◌};
ghost use Rattle.su_schema.specs.declared.faults.SchemaFault.TheVariants.{NoMemory as OutOfMemory};

use std::alloc::{AllocError, AllocFailed};
use su_base::{NoMemory, Str};
use thiserror::Error;

/// Why a definition is refused.
#[derive(Debug, Drop, Error)]
pub enum SchemaFault {
    /// The name stands already where names are to differ.
    #[error("the name stands twice")]
    Twice(Str),
    /// No definition has the name.
    #[error("the name is not known")]
    Unknown(Str),
    /// An attribute is to be taken from a column of the other kind.
    #[error("the kinds of an attribute and its column differ")]
    KindDiffers { attribute: Str, column: Str },
    /// There are as many as there may be, or more columns are given than a relation may have.
    #[error("a limit is met")]
    Limit(SchemaLimit),
    #[error("memory could not be had")]
    NoMemory,
}

/// Of what there are as many as there may be.
#[derive(Clone, Copy, PartialEq, Eq, Debug)]
pub enum SchemaLimit {
    /// 128 attributes.
    Attributes,
    /// 64 relations.
    Relations,
    /// 32 columns of one relation.
    Columns,
    /// 64 objects.
    Objects,
    /// 256 dependencies.
    Fds,
    /// 64 declared maximal objects.
    Maximal,
}

impl From<NoMemory> for SchemaFault {
    ghost from_gives = { λ _ fault. fault ≡ OutOfMemory };

    fn from(_: NoMemory) -> SchemaFault {
        SchemaFault::NoMemory
    }
}

impl From<AllocError> for SchemaFault {
    ghost from_gives = { λ _ fault. fault ≡ OutOfMemory };

    fn from(_: AllocError) -> SchemaFault {
        SchemaFault::NoMemory
    }
}

impl<T: Drop> From<AllocFailed<T>> for SchemaFault {
    ghost from_gives = { λ _ fault. fault ≡ OutOfMemory };

    fn from(_: AllocFailed<T>) -> SchemaFault {
        SchemaFault::NoMemory
    }
}

impl<T: Drop> From<(T, NoMemory)> for SchemaFault {
    ghost from_gives = { λ _ fault. fault ≡ OutOfMemory };

    fn from(_: (T, NoMemory)) -> SchemaFault {
        SchemaFault::NoMemory
    }
}
