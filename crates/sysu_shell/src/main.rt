//! `sysu_shell [FILE] [--schema FILE] [--files FOLDER] [--frames] [--workers N]`: answers statements as
//! they come on standard input, and keeps what is accepted in the file.
//!
//! `su_talk::talk` is what it does, over any company; `main` hands it the system's. Standard output has
//! the replies and nothing else; for statuses 3, 4, 8 and 9 one line on standard error says why, and one
//! says so where the file couldn't be made to stand alone.
#![tactic(auto)]

mod folders;
mod homes;
mod opening;
mod options;
mod schemas;
mod system;
mod telling;
mod words;

use homes::{Home, Memory};
use opening::open;
use schemas::wanted_schema;
use sqlite_std_file::Unknown;
use std::process::ExitCode;
use std::thread::Threads;
use su_io::command_words;
use su_par::OpenGate;
use su_session::Session;
use su_state::Database;
use su_talk::{Manner, talk};
use system::System;
use telling::{End, end_of, is_unsettled, say, say_unsettled};
use words::Asked;

/// Talks from the database on, which is kept in this home.
fn talk_in<R: Threads + Sync, H: Home + Drop>(
    threads: &R,
    rt: HostRuntime,
    home: H,
    db: Database,
    wanted: Asked,
) -> End
    requires { H.keeps home db }
{
    let alloc = rt.alloc();
    let Ok(session) = Session::resume(alloc, db) else {
        drop(home);
        return End::NoMemory;
    };
    let manner = Manner {
        frames: wanted.frames,
        workers: wanted.workers.unwrap_or(1).max(1).min(16),
    };
    let mut system = System::new(rt, wanted.folder, home);
    let close = talk(threads, alloc, session, manner, &mut system, &OpenGate);
    let is_settled = system.settle();
    drop(system);
    if let (Some(path), true) = (&wanted.file, is_unsettled(close, is_settled)) {
        say_unsettled(rt, path);
    }
    end_of(close)
}

/// What the words ask for, up to the hand-over.
fn run<R: Threads + Sync>(threads: &R, rt: HostRuntime, wanted: Asked) -> End {
    let schema = match wanted_schema(rt, &wanted) {
        Ok(schema) => schema,
        Err(end) => return end,
    };
    let (file, db) = match open(rt, &wanted, Unknown, schema) {
        Ok(opened) => opened,
        Err(end) => return end,
    };
    match file {
        Some(file) => talk_in(threads, rt, file, db, wanted),
        None => talk_in(threads, rt, Memory, db, wanted),
    }
}

fn main(rt: HostRuntime) -> ExitCode {
    let end = match command_words(&rt) {
        Ok(words) => match Asked::of_words(rt.alloc(), words.as_slice()) {
            Ok(Some(wanted)) => run(&rt, rt, wanted),
            Ok(None) => End::Usage,
            Err(_) => End::NoMemory,
        },
        Err(_) => End::NoMemory,
    };
    ExitCode::from(say(rt, &end))
}
