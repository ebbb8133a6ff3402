//! The words of the command line.

use std::{env, io};
use su_base::{List, NoMemory, Str};

/// The words after the program's name; none where one is no text.
pub fn command_words(rt: &HostRuntime) -> Result<List<Str>, NoMemory> {
    let mut words = List::new(rt.alloc());
    match env::args(rt) {
        Ok(args) => {
            for arg in args.skip(1) {
                words.push(Str::new(rt.alloc(), arg.as_str())?)?;
            }
            Ok(words)
        }
        Err(error) => match error.kind() {
            io::ErrorKind::OutOfMemory => Err(NoMemory),
            _ => Ok(words),
        },
    }
}
