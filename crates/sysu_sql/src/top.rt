//! The run of the program over any shelf and sink.
ghost use Rattle.std.specs.Prelude.{◌≡◌};
ghost use Rattle.su_io.specs.HandOver.{EndsHandedOver};
ghost use Rattle.su_io.specs.Moments.{Moment};
ghost use Rattle.sysu_sql.specs.Runs.{Comes, RunEnds};

use crate::telling::{tell_script, tell_usage};
use crate::words::command_of;
use std::alloc::Global;
use std::thread::Threads;
use su_base::Str;
use su_files::{open_schema, read_script};
use su_io::{Outside, Shelf, Sink, Status};
use su_par::Gate;
use su_sql::Dialect;

/// Writes the script's file as SQL on the schema of its file.
fn run_named<R: Threads + Sync, H: Shelf, K: Sink, G: Gate>(
    rt: &R,
    alloc: Global,
    schema: Str,
    script: Str,
    dialect: Dialect,
    outside: &mut Outside<H, K>,
    gate: &G,
) -> Status
    ensures files { outside.new.files ≡ outside.old.files }
    ensures ends { RunEnds (record { schema = schema; script = script; dialect = dialect }) outside.old outside.new result }
{
    let schema = match open_schema(alloc, schema, outside) {
        Ok(schema) => schema,
        Err(status) => return status,
    };
    match read_script(alloc, script, outside) {
        Ok(bytes) => tell_script(rt, alloc, dialect, schema, bytes.as_slice(), outside, gate),
        Err(status) => status,
    }
}

/// What the words ask for, up to the hand-over at the end.
fn run_words<R: Threads + Sync, H: Shelf, K: Sink, G: Gate>(
    rt: &R,
    alloc: Global,
    words: &[Str],
    outside: &mut Outside<H, K>,
    gate: &G,
) -> Status
    ensures files { outside.new.files ≡ outside.old.files }
    ensures comes { Comes words.now outside.old outside.new result }
{
    let Some(asked) = command_of(words) else {
        return tell_usage(outside);
    };
    let (Ok(schema), Ok(script)) = (asked.schema.copy(alloc), asked.script.copy(alloc)) else {
        return Status::NoMemory;
    };
    run_named(rt, alloc, schema, script, asked.dialect, outside, gate)
}

/// The whole program over any shelf and sink. The words, without the program's name, are
/// `SCHEMA SCRIPT`, and may end with `--dialect` and the name of one; for any others the usage line is
/// written. Both files are read, and the whole text is made, before any of it is written. In the end
/// the sink hands over what it holds back, where the files were read and no write failed; where that fails the status
/// is 5. So with any other status all that was written is over.
pub fn run<R: Threads + Sync, H: Shelf, K: Sink, G: Gate>(
    rt: &R,
    alloc: Global,
    words: &[Str],
    outside: &mut Outside<H, K>,
    gate: &G,
) -> Status
    ensures files { outside.new.files ≡ outside.old.files }
    ensures ends { EndsHandedOver (Comes words.now) outside.old outside.new result }
{
    let came = run_words(rt, alloc, words, outside, gate);
    outside.hand_over(came)
}
