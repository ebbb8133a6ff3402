//! The run of the program over any shelf and sink.
ghost use Rattle.std.specs.Prelude.{◌≡◌};
ghost use Rattle.su_io.specs.HandOver.{EndsHandedOver};
ghost use Rattle.su_io.specs.Moments.{Moment};
ghost use Rattle.sysu_doctor.specs.Runs.{Comes, RunEnds};

use crate::findings::Findings;
use crate::statements::answer_all;
use crate::telling::{tell_report, tell_usage};
use crate::words::command_of;
use std::alloc::Global;
use std::thread::Threads;
use su_base::Str;
use su_files::{open_schema, read_script};
use su_io::{Outside, Shelf, Sink, Status};
use su_par::Gate;
use su_session::Session;

/// Looks at the schema of its file.
fn look_at<H: Shelf, K: Sink>(alloc: Global, schema: Str, outside: &mut Outside<H, K>) -> Status
    ensures files { outside.new.files ≡ outside.old.files }
    ensures ends { RunEnds (record { schema = schema; script = None }) outside.old outside.new result }
{
    match open_schema(alloc, schema, outside) {
        Ok(schema) => tell_report(alloc, &schema, Findings::none(alloc), outside),
        Err(status) => status,
    }
}

/// Looks at the schema after the script.
fn look_after<R: Threads + Sync, H: Shelf, K: Sink, G: Gate>(
    rt: &R,
    alloc: Global,
    schema: Str,
    script: Str,
    outside: &mut Outside<H, K>,
    gate: &G,
) -> Status
    ensures files { outside.new.files ≡ outside.old.files }
    ensures ends { RunEnds (record { schema = schema; script = Some script }) outside.old outside.new result }
{
    let schema = match open_schema(alloc, schema, outside) {
        Ok(schema) => schema,
        Err(status) => return status,
    };
    let bytes = match read_script(alloc, script, outside) {
        Ok(bytes) => bytes,
        Err(status) => return status,
    };
    let Ok(mut session) = Session::open(alloc, schema) else {
        return Status::NoMemory;
    };
    match answer_all(rt, alloc, &mut session, bytes.as_slice(), outside, gate) {
        Ok(found) => tell_report(alloc, session.database().schema(), found, outside),
        Err(status) => status,
    }
}

/// What the words ask for, up to the hand-over at the end.
fn run_words<R: Threads + Sync, H: Shelf, K: Sink, G: Gate>(
    rt: &R,
    alloc: Global,
    words: &[Str],
    outside: &mut Outside<H, K>,
    gate: &G,
) -> Status
    ensures files { outside.new.files ≡ outside.old.files }
    ensures comes { Comes words.now outside.old outside.new result }
{
    let Some(asked) = command_of(words) else {
        return tell_usage(outside);
    };
    let Ok(schema) = asked.schema.copy(alloc) else {
        return Status::NoMemory;
    };
    let Some(script) = asked.script else {
        return look_at(alloc, schema, outside);
    };
    match script.copy(alloc) {
        Ok(script) => look_after(rt, alloc, schema, script, outside, gate),
        Err(_) => Status::NoMemory,
    }
}

/// The whole program over any shelf and sink. The words, without the program's name, are `SCHEMA` or
/// `SCHEMA SCRIPT`; for any others the usage line is written. The files are read, the statements of the
/// script are answered, and the lines of those that are refused and the whole report are made, before
/// any of it is written. The status is 1 where the report tells a fault or a statement is refused. In the end the sink hands
/// over what it holds back, where the files were read and no write failed; where that fails the status is
/// 5. So with any other status all that was written is over.
pub fn run<R: Threads + Sync, H: Shelf, K: Sink, G: Gate>(
    rt: &R,
    alloc: Global,
    words: &[Str],
    outside: &mut Outside<H, K>,
    gate: &G,
) -> Status
    ensures files { outside.new.files ≡ outside.old.files }
    ensures ends { EndsHandedOver (Comes words.now) outside.old outside.new result }
{
    let came = run_words(rt, alloc, words, outside, gate);
    outside.hand_over(came)
}
