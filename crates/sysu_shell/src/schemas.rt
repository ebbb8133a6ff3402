//! The schema that `--schema` asks for.
ghost use Rattle.std.specs.Prelude.{◌≡◌, is_some, IfOk};

use crate::telling::End;
use crate::words::Asked;
use std::alloc::Global;
use su_base::{NoMemory, Str};
use su_ddl::{DdlFault, read};
use su_io::{FileShelf, ReadEnd, read_all};
use su_schema::Schema;
use su_show::ddl_fault;

/// How many bytes a schema may have.
const SCHEMA_LIMIT: u64 = 1 << 20;

/// The end for a schema that is refused.
fn refused(alloc: Global, fault: &DdlFault) -> End {
    match ddl_fault(alloc, fault) {
        Ok(line) => End::BadSchema(line),
        Err(NoMemory) => End::NoMemory,
    }
}

/// The schema in the file.
fn schema_in(rt: HostRuntime, path: &Str) -> Result<Schema, End> {
    let alloc = rt.alloc();
    let Ok(path) = path.copy(alloc) else {
        return Err(End::NoMemory);
    };
    let mut shelf = FileShelf::new(rt);
    let bytes = match read_all(alloc, &mut shelf, path, SCHEMA_LIMIT) {
        Ok(bytes) => bytes,
        Err(ReadEnd::Failed) => return Err(End::SchemaFault),
        Err(ReadEnd::TooLong) => return Err(End::TooLong),
        Err(ReadEnd::NoMemory) => return Err(End::NoMemory),
    };
    match read(alloc, bytes.as_slice()) {
        Ok(schema) => Ok(schema),
        Err(fault) => Err(refused(alloc, &fault)),
    }
}

/// The schema that is asked for.
pub(crate) fn wanted_schema(rt: HostRuntime, wanted: &Asked) -> Result<Option<Schema>, End>
    ensures { IfOk result (λ schema. is_some schema ≡ is_some wanted.now.schema) }
{
    match &wanted.schema {
        Some(path) => Ok(Some(schema_in(rt, path)?)),
        None => Ok(None),
    }
}
