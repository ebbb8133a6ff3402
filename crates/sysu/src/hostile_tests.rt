//! Malformed input, over an outside whose calls never fail.
use crate::fault_tests::{BANK, words};
use crate::steady::run_steadily;
use std::alloc::Global;
use std::test::Fail;
use std::thread::Threads;
use su_base::{List, NoMemory, Str};
use su_io::{File, Outside, Status, SteadyShelf, SteadySink};
use su_par::OpenGate;

/// A schema, a script, the file `f.csv`, and the status of the run.
type Case = (&'static [u8], &'static [u8], &'static [u8], Status);

const CASES: &[Case] = &[
    // a byte 0 in a schema, behind a statement and within one
    (b"attribute A int;\0", b"", b"", Status::BadSchema),
    (b"attribute\0A int;", b"", b"", Status::BadSchema),
    // a script that isn't UTF-8, inside and outside a text
    (
        b"attribute A text; relation R (A text);",
        b"insert R ('\xff')",
        b"",
        Status::SomeRefused,
    ),
    (
        b"attribute A text; relation R (A text);",
        b"insert \xff ('x')",
        b"",
        Status::SomeRefused,
    ),
    // a byte order mark alone; a quote that isn't closed takes in the rest
    (
        b"attribute A text; relation R (A text);",
        b"load R from 'f.csv'",
        b"\xef\xbb\xbf",
        Status::SomeRefused,
    ),
    (
        b"attribute A text; relation R (A text);",
        b"load R from 'f.csv'",
        b"A\n\"x\ny",
        Status::Done,
    ),
    // the same without faults
    (
        b"attribute A text; relation R (A text);",
        b"insert R ('x'); load R from 'f.csv'",
        b"\xef\xbb\xbfA\n\"x\"\ny\n",
        Status::Done,
    ),
];

/// The first of the statements below.
const FIRST: &str = "insert BA ('B1', 1);";

/// Of its three statements the second is in no form.
const MISSPELLED: &str = "insert BA ('B1', 1); retrive (BANK); print BA";

fn file(alloc: Global, name: &str, bytes: &[u8]) -> Result<File, NoMemory> {
    Ok(File {
        name: Str::new(alloc, name)?,
        bytes: List::from_vec(bytes.to_vec(alloc)?),
    })
}

/// A shelf with the schema, the script and the file, and a sink.
fn outside(
    alloc: Global,
    schema: &[u8],
    script: &[u8],
    loaded: &[u8],
) -> Result<Outside<SteadyShelf, SteadySink>, NoMemory> {
    let mut files = List::new(alloc);
    for (name, bytes) in [("s", schema), ("t", script), ("f.csv", loaded)] {
        files.push(file(alloc, name, bytes)?)?;
    }
    let sink = SteadySink::new(alloc, 1000)?;
    let shelf = SteadyShelf::new(files);
    Ok(Outside { shelf, sink })
}

/// The run's status, without its promises.
fn status_of<R: Threads + Sync>(
    rt: &R,
    alloc: Global,
    words: &[Str],
    outside: &mut Outside<SteadyShelf, SteadySink>,
) -> Status {
    run_steadily(rt, alloc, words, outside, &OpenGate)
}

/// The status of a run on these files.
fn ended<R: Threads + Sync>(
    rt: &R,
    alloc: Global,
    schema: &[u8],
    script: &[u8],
    loaded: &[u8],
) -> Result<Status, NoMemory> {
    let words = words(alloc, &["run", "s", "t"])?;
    let mut outside = outside(alloc, schema, script, loaded)?;
    Ok(status_of(rt, alloc, words.as_slice(), &mut outside))
}

/// Whether a front of a text is whole statements, where this is what stands behind it: in the text there
/// are spaces between statements alone.
fn is_whole(front: &[u8], behind: &[u8]) -> bool {
    match (front.trim_ascii_end().last(), behind.first()) {
        (Some(last), Some(next)) => *last == b';' || *next == b';',
        _ => true,
    }
}

/// How a run on this front of the schema ends, without statements.
fn schema_status(front: &[u8], behind: &[u8]) -> Status {
    if is_whole(front, behind) {
        Status::Done
    } else {
        Status::BadSchema
    }
}

/// How a run on this front of the script ends: with what is behind the first statement a refusal begins.
fn script_status(front: &[u8], behind: &[u8]) -> Status {
    if front.trim_ascii_end().len() <= FIRST.len() && is_whole(front, behind) {
        Status::Done
    } else {
        Status::SomeRefused
    }
}

/// The first number of bytes at which the schema's front ends otherwise.
fn first_schema_otherwise<R: Threads + Sync>(
    rt: &R,
    alloc: Global,
) -> Result<Option<usize>, NoMemory> {
    let schema = BANK.as_bytes();
    for k in 0..schema.len() {
        let (front, behind) = schema.split_at(k);
        if ended(rt, alloc, front, b"", b"")? != schema_status(front, behind) {
            return Ok(Some(k));
        }
    }
    Ok(None)
}

/// The first number of bytes at which the script's front ends otherwise.
fn first_script_otherwise<R: Threads + Sync>(
    rt: &R,
    alloc: Global,
) -> Result<Option<usize>, NoMemory> {
    let script = MISSPELLED.as_bytes();
    for k in 0..script.len() {
        let (front, behind) = script.split_at(k);
        if ended(rt, alloc, BANK.as_bytes(), front, b"")? != script_status(front, behind) {
            return Ok(Some(k));
        }
    }
    Ok(None)
}

/// The first case that ends otherwise.
fn first_case_otherwise<R: Threads + Sync>(
    rt: &R,
    alloc: Global,
) -> Result<Option<usize>, NoMemory> {
    for (k, (schema, script, loaded, want)) in CASES.iter().enumerate() {
        if ended(rt, alloc, schema, script, loaded)? != *want {
            return Ok(Some(k));
        }
    }
    Ok(None)
}

#[test]
fn each_front_of_a_schema_ends_by_its_statements(rt: HostRuntime) -> Result<(), Fail> {
    let otherwise = first_schema_otherwise(&rt, rt.alloc())?;
    assert_eq!(rt; otherwise, None);
    Ok(())
}

#[test]
fn each_front_of_a_script_ends_by_its_statements(rt: HostRuntime) -> Result<(), Fail> {
    let otherwise = first_script_otherwise(&rt, rt.alloc())?;
    assert_eq!(rt; otherwise, None);
    Ok(())
}

#[test]
fn malformed_files_end_by_their_statements(rt: HostRuntime) -> Result<(), Fail> {
    let otherwise = first_case_otherwise(&rt, rt.alloc())?;
    assert_eq!(rt; otherwise, None);
    Ok(())
}
