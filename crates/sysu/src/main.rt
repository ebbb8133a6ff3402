//! `sysu run SCHEMA SCRIPT [--workers N]`: reads a schema and a script, and writes one reply per
//! statement. `sysu generate N`: makes a bank with N rows in each relation, and tells what four queries
//! find in it. `sysu check FILE`: tells the verdict on a certificate.
//!
//! `top::run` is the whole program over any shelf and sink; `main` hands it the files of the system
//! and standard output, which is written in large pieces, and ends with its status as exit code.
//! Nothing goes to standard error.
#![tactic(auto)]

mod agreeing;
mod checking;
mod generating;
mod headline;
mod statements;
mod steady;
mod top;

use std::process::ExitCode;
use su_base::NoMemory;
use su_io::{FileShelf, Outside, Status, StreamSink, command_words};
use su_par::OpenGate;
use top::run;

fn main(rt: HostRuntime) -> ExitCode {
    let mut outside = Outside {
        shelf: FileShelf::new(rt),
        sink: StreamSink::new(rt),
    };
    let status = match command_words(&rt) {
        Ok(words) => run(&rt, rt.alloc(), words.as_slice(), &mut outside, &OpenGate),
        Err(NoMemory) => Status::NoMemory,
    };
    ExitCode::from(status as u8)
}

#[cfg(test)]
mod fault_tests;
#[cfg(test)]
mod hostile_tests;
#[cfg(test)]
mod worker_tests;
