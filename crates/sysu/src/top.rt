//! The run of the program over any shelf and sink.
ghost use Rattle.std.specs.Prelude.{◌≡◌, ◌≢◌, ◌≤◌, ◌&&◌, nat_eq, nat_lt, true, false, Some, ◌<◌, ◌^◌, ◌++◌, ◌∷◌, [], IfOk, IfSome, MatchOption, option_map, string_bytes};
ghost use Rattle.su_io.specs.HandOver.{EndsHandedOver};
ghost use Rattle.su_io.specs.Moments.{Moment};
ghost use Rattle.su_io.specs.Programs.{UsageEnds};
ghost use Rattle.sysu.specs.Complete.{IsComplete};
ghost use Rattle.sysu.specs.Headline.{Headline};
ghost use Rattle.sysu.specs.inside.Counts.{IsCountWhere};
ghost use Rattle.sysu.specs.Statuses.{Comes, RunEnds};
ghost use Rattle.sysu.specs.Words.{named, checks, is_count, usage_line};

use crate::checking::check_file;
use crate::generating::{generate, rows_asked};
use crate::headline::queries_are_answered;
use crate::statements::answer_all;
use std::alloc::Global;
use std::thread::Threads;
use su_base::Str;
use su_files::{open_schema, read_script};
use su_io::{Outside, Shelf, Sink, Status};
use su_par::Gate;
use su_session::Session;

const USAGE: &str =
    "usage: sysu run SCHEMA SCRIPT [--workers N] | sysu generate N | sysu check FILE\n";

/// The digit, from 1 to 9.
fn digit(d: u8) -> Option<u8>
    ensures { IsCountWhere (nat_lt 48 d && nat_lt d 58) result }
{
    if b'0' < d && d <= b'9' {
        return Some(d - b'0');
    }
    None
}

/// The number of a 1 and a digit, from 10 to 16.
fn two_digits(one: u8, d: u8) -> Option<u8>
    ensures { IsCountWhere (nat_eq one 49 && (nat_lt 47 d && nat_lt d 55)) result }
{
    if one == b'1' && b'0' <= d && d <= b'6' {
        return Some(d - b'0' + 10);
    }
    None
}

/// The number of workers, from 1 to 16, where the digits are its decimal.
fn worker_count(digits: &[u8]) -> Option<u8>
    ensures { IsCountWhere (is_count digits.now) result }
{
    match digits {
        [d] => digit(*d),
        [one, d] => two_digits(*one, *d),
        _ => None,
    }
}

/// A run that is asked for: the names of the schema's and of the script's file, and the workers.
#[derive(Clone, Copy)]
struct Asked<'a> {
    schema: &'a Str,
    script: &'a Str,
    workers: u8,
}

/// What the words ask for.
fn command_of(words: &[Str]) -> Option<Asked>
    ensures names { option_map (λ asked. record { schema = asked.schema.now; script = asked.script.now }) result ≡ named words.now }
    ensures workers { IfSome result (λ asked. (1 ≤ asked.workers) × (asked.workers ≤ 16)) }
{
    match words {
        [word, schema, script] if word.as_str() == "run" => Some(Asked {
            schema,
            script,
            workers: 1,
        }),
        [word, schema, script, option, digits]
            if word.as_str() == "run" && option.as_str() == "--workers" => {
            let workers = worker_count(digits.as_str().as_bytes())?;
            Some(Asked {
                schema,
                script,
                workers,
            })
        }
        _ => None,
    }
}

/// The file whose certificate the words ask to check.
fn check_of(words: &[Str]) -> Option<&Str>
    ensures { option_map (λ file. file.now) result ≡ checks words.now }
{
    match words {
        [word, file] if word.as_str() == "check" => Some(file),
        _ => None,
    }
}

/// Writes the usage line.
fn tell_usage<H: Shelf, K: Sink>(outside: &mut Outside<H, K>) -> Status
    ensures files { outside.new.files ≡ outside.old.files }
    ensures ends { UsageEnds usage_line outside.old outside.new result }
{
    outside.tell(USAGE.as_bytes(), Status::Usage)
}

/// Runs the script on the schema.
fn run_files<R: Threads + Sync, H: Shelf, K: Sink, G: Gate>(
    rt: &R,
    alloc: Global,
    schema: Str,
    script: Str,
    workers: u8,
    outside: &mut Outside<H, K>,
    gate: &G,
) -> Status
    requires least { 1 ≤ workers }
    requires most { workers ≤ 16 }
    ensures files { outside.new.files ≡ outside.old.files }
    ensures ends { RunEnds (record { schema = schema; script = script }) outside.old outside.new result }
{
    let schema = match open_schema(alloc, schema, outside) {
        Ok(schema) => schema,
        Err(status) => return status,
    };
    let Ok(session) = Session::open(alloc, schema) else {
        return Status::NoMemory;
    };
    match read_script(alloc, script, outside) {
        Ok(bytes) => answer_all(rt, alloc, session, bytes.as_slice(), workers, outside, gate),
        Err(status) => status,
    }
}

/// What the words ask for, up to the hand-over at the end.
fn run_words<R: Threads + Sync, H: Shelf, K: Sink, G: Gate>(
    rt: &R,
    alloc: Global,
    words: &[Str],
    outside: &mut Outside<H, K>,
    gate: &G,
) -> Status
    ensures files { outside.new.files ≡ outside.old.files }
    ensures comes { Comes words.now outside.old outside.new result }
{
    if let Some(file) = check_of(words) {
        return check_file(alloc, file, outside);
    }
    if let Some(n) = rows_asked(words) {
        return generate(rt, alloc, n, outside, gate);
    }
    let Some(asked) = command_of(words) else {
        return tell_usage(outside);
    };
    let (Ok(schema), Ok(script)) = (asked.schema.copy(alloc), asked.script.copy(alloc)) else {
        return Status::NoMemory;
    };
    run_files(rt, alloc, schema, script, asked.workers, outside, gate)
}

/// The whole program over any shelf and sink. The words, without the program's name, are
/// `run SCHEMA SCRIPT`, and may end with `--workers N` for a number from 1 to 16, `generate N` for a
/// number from 1 to 1,000, or `check FILE`; for any others the usage line is written. The schema file is
/// read first, then the script, whose statements are answered one by one; each reply is written whole. What
/// the sink holds back is handed over before the file of a load is begun, and at the end of a run that no file or write
/// has ended; where that fails the status is 5. So with 4 or 6 nothing is left to hand over, and with any status but 5
/// all that was written is over.
///
/// At most N terms of a query are minimised or executed at a time (1 without the option), and the
/// gate is passed before each; neither is in any clause.
///
/// Where the files and the output tell their bytes, the headline says what the replies to the queries of
/// a run are that came to its end: a moment has both as options, and each clause speaks of the bytes of
/// files where the shelf tells its files, and of what was written where the sink tells its bytes.
///
/// For `check FILE` the verdict on the certificate in the file is written: status 0 for a yes, 1 for a
/// no. For `generate N` a bank with N rows in each relation is made, by one worker, and what four queries
/// find in it is written.
pub fn run<R: Threads + Sync, H: Shelf, K: Sink, G: Gate>(
    rt: &R,
    alloc: Global,
    words: &[Str],
    outside: &mut Outside<H, K>,
    gate: &G,
) -> Status
    ensures files { outside.new.files ≡ outside.old.files }
    ensures ends { EndsHandedOver (Comes words.now) outside.old outside.new result }
    ensures complete { IsComplete words.now outside.old outside.new result }
    ensures headline { Headline words.now outside.old outside.new result }
{
    queries_are_answered();
    let came = run_words(rt, alloc, words, outside, gate);
    outside.hand_over(came)
}
