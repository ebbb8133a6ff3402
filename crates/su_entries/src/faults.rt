//! Why a tree is not read.
ghost use Rattle.std.specs.Prelude.{◌≡◌};
ghost use Rattle.su_entries.specs.declared.faults.ReadFault.TheVariants.{NoMemory as OutOfMemory, Store as OfStore};

use sqlite_trees::error::StoreError;
use su_base::NoMemory;

/// Why the rows of a tree are not read.
#[derive(Clone, Copy, Debug)]
pub enum ReadFault {
    /// The store answered with this error.
    Store(StoreError),
    /// The entry with this number, from 1, holds no row.
    NoRow(u64),
    /// There are more entries than were asked for at most.
    TooMany,
    NoMemory,
}

impl From<StoreError> for ReadFault {
    ghost from_gives = { λ error fault. fault ≡ OfStore error };

    fn from(error: StoreError) -> ReadFault {
        ReadFault::Store(error)
    }
}

impl From<NoMemory> for ReadFault {
    ghost from_gives = { λ _ fault. fault ≡ OutOfMemory };

    fn from(_: NoMemory) -> ReadFault {
        ReadFault::NoMemory
    }
}
