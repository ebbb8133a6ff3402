//! Why a file is not opened, and why a change is not kept.
ghost use Rattle.std.specs.Prelude.{◌≡◌};
ghost use Rattle.su_keep.specs.declared.faults.KeepFault.TheVariants.{NoMemory as KeepOutOfMemory};
ghost use Rattle.su_keep.specs.inside.Faults.{keep_fault};

use sqlite_std_file::OpenError as FilesError;
use sqlite_store::OpenError;
use sqlite_trees::error::StoreError;
use std::alloc::{AllocError, Global};
use su_base::{Kind, List, NoMemory, Str};
use su_ddl::DdlFault;
use su_entries::ReadFault;

/// Why a change is not kept. The file holds what it held before the group, or what it would hold after it.
#[derive(Clone, Copy, Debug)]
pub enum KeepFault {
    NoMemory,
    /// The disk failed.
    Io,
    /// The disk has no room, or the file has met a limit.
    Full,
    /// A row, or the text of the schema, is longer than SQLite's format holds.
    TooLong,
    /// The file is not what was written, or an earlier group was not kept.
    Damaged,
}

/// Why a row of the file is refused.
#[derive(Drop)]
pub enum RowFault {
    /// It has so many values, and not as many as the relation has columns.
    Width(u64),
    /// The value of the column is not of this kind.
    Kind {
        column: Str,
        wanted: Kind,
    },
    /// With an earlier row, which has this number, it breaks the dependency through the object.
    Breaks {
        left: List<Str>,
        right: List<Str>,
        object: Str,
        other: u64,
    },
}

/// Why a file is not opened as a database.
#[derive(Drop)]
pub enum OpenFault {
    NoMemory,
    /// Another process has it open.
    InUse,
    /// SQLite left a journal that it has to play back.
    Journal,
    /// The file can't be read or made.
    Io,
    /// It has met a limit of SQLite's format.
    Full,
    /// It is no SQLite database, or a damaged one.
    NotADatabase,
    /// Its user version is another.
    Version(u32),
    /// It has a table, a view, an index or a trigger with this name that is not the schema's.
    Foreign(Str),
    /// The table of this relation is missing.
    Missing(Str),
    /// It has no text of a schema, or several.
    NoSchema,
    /// The schema's text is refused.
    Schema(DdlFault),
    /// The row with this number, from 1 in the file's order, has a value that is no number and no text of UTF-8.
    NoRow {
        relation: Str,
        number: u64,
    },
    /// The relation has more than 1,000,000 rows.
    TooMany {
        relation: Str,
    },
    /// The row with this number, from 1 in the file's order, is refused.
    Refused {
        relation: Str,
        number: u64,
        why: RowFault,
    },
}

impl From<NoMemory> for OpenFault {
    fn from(_: NoMemory) -> OpenFault {
        OpenFault::NoMemory
    }
}

impl From<AllocError> for OpenFault {
    fn from(_: AllocError) -> OpenFault {
        OpenFault::NoMemory
    }
}

impl From<KeepFault> for OpenFault {
    fn from(fault: KeepFault) -> OpenFault {
        match fault {
            KeepFault::NoMemory => OpenFault::NoMemory,
            KeepFault::Io => OpenFault::Io,
            KeepFault::Full | KeepFault::TooLong => OpenFault::Full,
            KeepFault::Damaged => OpenFault::NotADatabase,
        }
    }
}

impl From<NoMemory> for KeepFault {
    ghost from_gives = { λ _ fault. fault ≡ KeepOutOfMemory };

    fn from(_: NoMemory) -> KeepFault {
        KeepFault::NoMemory
    }
}

impl From<AllocError> for KeepFault {
    ghost from_gives = { λ _ fault. fault ≡ KeepOutOfMemory };

    fn from(_: AllocError) -> KeepFault {
        KeepFault::NoMemory
    }
}

impl From<StoreError> for KeepFault {
    ghost from_gives = { λ error fault. fault ≡ keep_fault error };

    fn from(error: StoreError) -> KeepFault {
        match error {
            StoreError::OutOfMemory => KeepFault::NoMemory,
            StoreError::Io => KeepFault::Io,
            StoreError::Full => KeepFault::Full,
            StoreError::Unstorable => KeepFault::TooLong,
            StoreError::Corrupt | StoreError::Broken => KeepFault::Damaged,
        }
    }
}

/// The fault that the store's error of an open stands for.
pub(crate) fn store_fault(error: OpenError) -> OpenFault {
    match error {
        OpenError::OutOfMemory => OpenFault::NoMemory,
        OpenError::Io => OpenFault::Io,
        OpenError::Full => OpenFault::Full,
        OpenError::Refused => OpenFault::NotADatabase,
    }
}

/// The fault that an error of the two files stands for.
pub(crate) fn files_fault(error: FilesError) -> OpenFault {
    match error {
        FilesError::OutOfMemory => OpenFault::NoMemory,
        FilesError::Busy => OpenFault::InUse,
        FilesError::HotJournal => OpenFault::Journal,
        FilesError::Io(_) => OpenFault::Io,
    }
}

/// The fault that one of looking at the two files stands for.
pub(crate) fn wal_fault(error: sqlite_wal::Error) -> OpenFault {
    match error {
        sqlite_wal::Error::OutOfMemory => OpenFault::NoMemory,
        sqlite_wal::Error::Io(_) => OpenFault::Io,
        sqlite_wal::Error::Full => OpenFault::Full,
        _ => OpenFault::NotADatabase,
    }
}

/// The fault that one of reading the relation's rows stands for.
pub(crate) fn read_fault(alloc: Global, relation: &str, fault: ReadFault) -> OpenFault {
    let Ok(relation) = Str::new(alloc, relation) else {
        return OpenFault::NoMemory;
    };
    match fault {
        ReadFault::Store(error) => OpenFault::from(KeepFault::from(error)),
        ReadFault::NoMemory => OpenFault::NoMemory,
        ReadFault::NoRow(number) => OpenFault::NoRow { relation, number },
        ReadFault::TooMany => OpenFault::TooMany { relation },
    }
}
