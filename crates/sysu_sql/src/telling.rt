//! What a run writes.
ghost use Rattle.std.specs.Prelude.{◌≡◌, ◌≢◌};
ghost use Rattle.su_io.specs.Moments.{Moment};
ghost use Rattle.su_io.specs.Programs.{UsageEnds};
ghost use Rattle.sysu_sql.specs.inside.Tellings.{SqlEnds, status_by};
ghost use Rattle.sysu_sql.specs.Words.{usage_line};

use std::alloc::Global;
use std::thread::Threads;
use su_io::{Outside, Shelf, Sink, Status};
use su_par::Gate;
use su_schema::Schema;
use su_sql::{Dialect, script};

const USAGE: &str = "usage: sysu_sql SCHEMA SCRIPT [--dialect postgres|sqlite|spark]\n";

/// Writes the usage line.
pub(crate) fn tell_usage<H: Shelf, K: Sink>(outside: &mut Outside<H, K>) -> Status
    ensures files { outside.new.files ≡ outside.old.files }
    ensures ends { UsageEnds usage_line outside.old outside.new result }
{
    outside.tell(USAGE.as_bytes(), Status::Usage)
}

/// The status of a script, by whether a statement was refused.
fn status_of(refused: bool) -> Status
    ensures by { result ≡ status_by refused }
    ensures own { result ≢ Status.WriteFault }
{
    if refused {
        return Status::SomeRefused;
    }
    Status::Done
}

/// Writes the script as SQL.
pub(crate) fn tell_script<R: Threads + Sync, H: Shelf, K: Sink, G: Gate>(
    rt: &R,
    alloc: Global,
    dialect: Dialect,
    schema: Schema,
    bytes: &[u8],
    outside: &mut Outside<H, K>,
    gate: &G,
) -> Status
    ensures { SqlEnds dialect schema bytes.now outside.old outside.new result }
{
    match script(rt, alloc, dialect, schema, bytes, gate) {
        Ok(reply) => outside.tell(reply.bytes.as_slice(), status_of(reply.refused)),
        Err(_) => Status::NoMemory,
    }
}
