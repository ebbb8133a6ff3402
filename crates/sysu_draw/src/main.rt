//! `sysu_draw [--kept] FILE`: draws what `sysu` writes for `explain` or for `schema`, as SVG on standard output.
//!
//! `top::run` is the whole program over any shelf and sink; `main` hands it the files of the system
//! and standard output, and ends with the status as its exit code. Nothing goes to standard error.
#![tactic(auto)]

mod replying;
mod top;

use std::process::ExitCode;
use su_base::NoMemory;
use su_io::{FileShelf, Outside, Status, StreamSink, command_words};
use top::run;

fn main(rt: HostRuntime) -> ExitCode {
    let mut outside = Outside {
        shelf: FileShelf::new(rt),
        sink: StreamSink::new(rt),
    };
    let status = match command_words(&rt) {
        Ok(words) => run(rt.alloc(), words.as_slice(), &mut outside),
        Err(NoMemory) => Status::NoMemory,
    };
    ExitCode::from(status as u8)
}
