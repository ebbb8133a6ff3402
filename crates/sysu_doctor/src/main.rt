//! `sysu_doctor SCHEMA [SCRIPT]`: writes what is wrong with a schema, or worth a look, on standard output.
//!
//! `top::run` is the whole program over any shelf and sink; `main` hands it the files of the system
//! and standard output, and ends with the status as its exit code. Nothing goes to standard error.
#![tactic(auto)]

mod findings;
mod statements;
mod telling;
mod top;
mod words;

use std::process::ExitCode;
use su_base::NoMemory;
use su_io::{FileShelf, Outside, Status, StreamSink, command_words};
use su_par::OpenGate;
use top::run;

fn main(rt: HostRuntime) -> ExitCode {
    let mut outside = Outside {
        shelf: FileShelf::new(rt),
        sink: StreamSink::new(rt),
    };
    let status = match command_words(&rt) {
        Ok(words) => run(&rt, rt.alloc(), words.as_slice(), &mut outside, &OpenGate),
        Err(NoMemory) => Status::NoMemory,
    };
    ExitCode::from(status as u8)
}
