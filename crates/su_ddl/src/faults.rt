//! Why a schema file is refused.
ghost use Rattle.std.specs.Prelude.{◌≡◌};
ghost use Rattle.su_ddl.specs.declared.faults.DdlFault.TheVariants.{NoMemory as OutOfMemory};

use su_base::NoMemory;
use su_schema::SchemaFault;
use thiserror::Error;

/// Why a schema file is refused. The number is that of the first statement at fault, from 1; pieces
/// of white space and comments alone are not counted.
#[derive(Debug, Drop, Error)]
pub enum DdlFault {
    /// The statement is no definition.
    #[error("a statement is no definition")]
    Syntax(u32),
    /// The definition may not be added to those before it. It is never for want of memory.
    #[error("a definition is refused")]
    Refused(u32, SchemaFault),
    #[error("memory could not be had")]
    NoMemory,
}

impl From<NoMemory> for DdlFault {
    ghost from_gives = { λ _ fault. fault ≡ OutOfMemory };

    fn from(_: NoMemory) -> DdlFault {
        DdlFault::NoMemory
    }
}
