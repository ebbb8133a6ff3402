//! Why a change is refused.
ghost use Rattle.std.specs.Prelude.{◌≡◌};
ghost use Rattle.su_state.specs.declared.faults.StateFault.TheVariants.{NoMemory as OutOfMemory};
ghost use Rattle.su_state.specs.declared.faults.LoadEnd.TheVariants.{NoMemory as LoadOutOfMemory};
ghost use Rattle.su_state.specs.declared.faults.DefineFault.TheVariants.{NoMemory as DefineOutOfMemory};

use su_base::{NoMemory, Row, Str};
use su_fd::Fd;
use su_schema::SchemaFault;

/// Why a change of rows is refused. Relations, columns, dependencies and objects are numbers from 0.
#[derive(Debug, Drop)]
pub enum StateFault {
    /// No relation has the name.
    UnknownRelation(Str),
    /// The row has not as many values as the relation has columns.
    Width {
        relation: u8,
        given: u64,
    },
    /// The first column whose value is of another kind.
    Kind {
        relation: u8,
        column: u8,
    },
    /// The first dependency that the row would break, the first object through which it would, and
    /// the least stored row that agrees on the left side and differs on the right.
    Breaks {
        relation: u8,
        fd: u16,
        object: u8,
        row: Row,
    },
    /// The relation has 1,000,000 rows.
    Limit {
        relation: u8,
    },
    NoMemory,
}

/// The first refused row of a load, with its number from 1.
#[derive(Debug, Drop)]
pub struct LoadFault {
    pub number: u64,
    pub fault: StateFault,
}

/// Why a load is refused. `Refused` never holds want of memory.
#[derive(Debug, Drop)]
pub enum LoadEnd {
    Refused(LoadFault),
    NoMemory,
}

/// Why a definition is refused. `Schema` never holds want of memory.
#[derive(Drop)]
pub enum DefineFault {
    /// A check of the definition fails.
    Schema(SchemaFault),
    /// Stored rows break a dependency: the first and the second of the least such pair, through the
    /// object with this name.
    Breaks {
        fd: Fd,
        object: Str,
        first: Row,
        second: Row,
    },
    NoMemory,
}

impl From<NoMemory> for StateFault {
    ghost from_gives = { λ _ fault. fault ≡ OutOfMemory };

    fn from(_: NoMemory) -> StateFault {
        StateFault::NoMemory
    }
}

impl From<NoMemory> for LoadEnd {
    ghost from_gives = { λ _ end. end ≡ LoadOutOfMemory };

    fn from(_: NoMemory) -> LoadEnd {
        LoadEnd::NoMemory
    }
}

impl From<NoMemory> for DefineFault {
    ghost from_gives = { λ _ fault. fault ≡ DefineOutOfMemory };

    fn from(_: NoMemory) -> DefineFault {
        DefineFault::NoMemory
    }
}
