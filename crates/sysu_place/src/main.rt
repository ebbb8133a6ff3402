//! `sysu_place schema|script|statement FILE`: tells where the text of one statement goes wrong, and what
//! could have stood there.
//!
//! `top::run` is the whole program over any shelf and sink; `main` hands it the files of the system
//! and standard output, and ends with the status as its exit code. Nothing goes to standard error.
#![tactic(auto)]

mod lines;
mod telling;
mod top;
mod words;

use std::process::ExitCode;
use su_base::NoMemory;
use su_io::{FileShelf, Outside, Status, StreamSink, command_words};
use top::run;

fn main(rt: HostRuntime) -> ExitCode {
    let mut outside = Outside {
        shelf: FileShelf::new(rt),
        sink: StreamSink::new(rt),
    };
    let status = match command_words(&rt) {
        Ok(words) => run(rt.alloc(), words.as_slice(), &mut outside),
        Err(NoMemory) => Status::NoMemory,
    };
    ExitCode::from(status as u8)
}
