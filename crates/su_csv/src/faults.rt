//! Why a file is refused.
ghost use Rattle.std.specs.Prelude.{◌≡◌};
ghost use Rattle.su_csv.specs.declared.faults.CsvFault.TheVariants.{NoMemory as Wanting};

use std::alloc::AllocError;
use su_base::NoMemory;
use thiserror::Error;

/// The first fault of a file. Records are numbered from 1 after the header, columns from 0.
#[derive(Debug, Drop, Error, Clone, Copy, PartialEq, Eq)]
pub enum CsvFault {
    /// The first record is not the column names in order, or there is none.
    #[error("the header is not the column names")]
    Header,
    /// There is a record 1,000,001.
    #[error("there are too many records")]
    TooMany,
    /// The record has not one field per column.
    #[error("a record has another width")]
    Width { number: u64 },
    /// A field of a number column is not a `-` or none and one or more digits, for a number of
    /// 64 bits.
    #[error("a field is no number")]
    NotInt { number: u64, column: u8 },
    /// A field of a text column is not UTF-8, or has more than 4,096 bytes.
    #[error("a field is no text")]
    NotText { number: u64, column: u8 },
    /// Memory could not be had.
    #[error("no memory")]
    NoMemory,
}

impl From<NoMemory> for CsvFault {
    ghost from_gives = { λ _ fault. fault ≡ Wanting };

    fn from(_: NoMemory) -> CsvFault {
        CsvFault::NoMemory
    }
}

impl From<AllocError> for CsvFault {
    ghost from_gives = { λ _ fault. fault ≡ Wanting };

    fn from(_: AllocError) -> CsvFault {
        CsvFault::NoMemory
    }
}

/// So that `push(..)?` converts. The item is dropped.
impl<T: Drop> From<(T, NoMemory)> for CsvFault {
    ghost from_gives = { λ _ fault. fault ≡ Wanting };

    fn from(_: (T, NoMemory)) -> CsvFault {
        CsvFault::NoMemory
    }
}
