//! A schema that is opened, and a script that is read.
ghost use Rattle.std.specs.Prelude.{◌≡◌, ◌<◌, ◌^◌, Some};
ghost use Rattle.su_files.specs.Openings.{OpeningEnds};
ghost use Rattle.su_files.specs.RunFiles.{script_limit};
ghost use Rattle.su_files.specs.inside.Tellings.{RefusalEnds};
ghost use Rattle.su_io.specs.FileEnds.{FileEnds};
ghost use Rattle.su_io.specs.Moments.{Moment};

use std::alloc::Global;
use su_base::{List, Str};
use su_ddl::{DdlFault, read};
use su_io::{Outside, Shelf, Sink, Status};
use su_schema::Schema;
use su_show::ddl_fault;

/// How many bytes a schema may have.
const SCHEMA_LIMIT: u64 = 1 << 20;

/// How many bytes a script may have.
const SCRIPT_LIMIT: u64 = 1 << 24;

/// Writes the line for a refused schema.
fn tell_refusal<H: Shelf, K: Sink>(
    alloc: Global,
    fault: &DdlFault,
    outside: &mut Outside<H, K>,
) -> Status
    ensures { RefusalEnds fault.now outside.old outside.new result }
{
    match ddl_fault(alloc, fault) {
        Ok(line) => outside.tell(line.as_slice(), Status::BadSchema),
        Err(_) => Status::NoMemory,
    }
}

/// The schema in the file, which may have 1 MiB. For any other answer the program ends with that status:
/// 3 where the schema is refused, and its line is written; 5 where that write failed; 4 where a read
/// failed, 6 where the file is longer, 7 for want of memory. The file is read once.
pub fn open_schema<H: Shelf, K: Sink>(
    alloc: Global,
    path: Str,
    outside: &mut Outside<H, K>,
) -> Result<Schema, Status>
    ensures files { outside.new.files ≡ outside.old.files }
    ensures ends { OpeningEnds path outside.old outside.new result }
{
    let bytes = outside.read(alloc, path, SCHEMA_LIMIT)?;
    match read(alloc, bytes.as_slice()) {
        Ok(schema) => Ok(schema),
        Err(fault) => Err(tell_refusal(alloc, &fault, outside)),
    }
}

/// The bytes of the script's file, which may have 16 MiB. For any other answer the program ends with that
/// status: 4 where a read failed, 6 where the file is longer, 7 for want of memory; nothing is written.
pub fn read_script<H: Shelf, K: Sink>(
    alloc: Global,
    path: Str,
    outside: &mut Outside<H, K>,
) -> Result<List<u8>, Status>
    ensures rest { outside.new ≡ record outside.old { begun = Some path; taken = outside.new.taken; failed = outside.new.failed; reads = outside.new.reads } }
    ensures ends { FileEnds path script_limit outside.old outside.new result }
{
    outside.read(alloc, path, SCRIPT_LIMIT)
}
