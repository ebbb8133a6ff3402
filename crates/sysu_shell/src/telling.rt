//! How the program ends, and the line that says why.
ghost use Rattle.std.specs.Prelude.{◌≡◌, ◌⊎◌};
ghost use Rattle.sysu_shell.specs.Statuses.{end_of, is_unsettled, status_of};

use std::io::{Print, Write};
use su_base::{List, Str};
use su_talk::Close;

pub const USAGE: &str =
    "usage: sysu_shell [FILE] [--schema FILE] [--files FOLDER] [--frames] [--workers N]\n";

/// How the program ends.
#[derive(Drop)]
pub enum End {
    Done,
    SomeRefused,
    Usage,
    /// The schema is refused, for what the line says.
    BadSchema(List<u8>),
    /// The schema's file can't be read.
    SchemaFault,
    /// Standard input can't be read.
    InputFault,
    WriteFault,
    TooLong,
    NoMemory,
    /// The file couldn't keep a change.
    KeepFault,
    /// The file can't be opened, for what the line says.
    BadFile(List<u8>),
}

/// The end of a talk that closed so.
pub fn end_of(close: Close) -> End
    ensures { result ≡ end_of close }
{
    match close {
        Close::Done => End::Done,
        Close::SomeRefused => End::SomeRefused,
        Close::InputFault => End::InputFault,
        Close::WriteFault => End::WriteFault,
        Close::TooLong => End::TooLong,
        Close::NoMemory => End::NoMemory,
        Close::KeepFault => End::KeepFault,
    }
}

/// Whether a line says that the file doesn't stand alone: where it doesn't, and the line for a change
/// that wasn't kept doesn't say so.
pub fn is_unsettled(close: Close, is_settled: bool) -> bool
    ensures { result ≡ is_unsettled close is_settled }
{
    match close {
        Close::KeepFault => false,
        _ => !is_settled,
    }
}

fn complain(rt: HostRuntime, line: &[u8]) {
    let mut err = rt.stderr();
    let _ = err.write_all(line);
}

/// Says why, where there is something to say, and gives the exit code.
pub fn say(rt: HostRuntime, end: &End) -> u8
    ensures { (result ≡ status_of end.now) ⊎ ((end.now ≡ End.Usage) × (result ≡ 5)) }
{
    match end {
        End::Done => 0,
        End::SomeRefused => 1,
        End::Usage => {
            let mut out = rt.stdout();
            match out.write_all(USAGE.as_bytes()) {
                Ok(()) => 2,
                Err(_) => 5,
            }
        }
        End::BadSchema(line) => {
            complain(rt, line.as_slice());
            3
        }
        End::SchemaFault => {
            complain(rt, b"the schema can't be read\n");
            4
        }
        End::InputFault => {
            complain(rt, b"standard input can't be read\n");
            4
        }
        End::WriteFault => 5,
        End::TooLong => 6,
        End::NoMemory => 7,
        End::KeepFault => {
            complain(
                rt,
                b"the file couldn't keep a change: it holds what it held before the statements that were not replied to, or these too\n",
            );
            8
        }
        End::BadFile(line) => {
            complain(rt, line.as_slice());
            9
        }
    }
}

/// Says that the file doesn't stand alone.
pub fn say_unsettled(rt: HostRuntime, path: &Str) {
    complain(rt, path.as_str().as_bytes());
    complain(rt, b": no room for the last copy: keep ");
    complain(rt, path.as_str().as_bytes());
    complain(rt, b"-wal beside it, which has what was kept last\n");
}
