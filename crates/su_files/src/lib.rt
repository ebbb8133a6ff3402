//! The two files of a run, the schema's and the script's.
//!
//! `open_schema` reads the one, and tells the line of a schema that is refused; `read_script` reads the
//! other. Either gives what a program goes on with, or the status that it ends with. A file is held
//! whole while it is read, the schema's no longer than that.
#![tactic(auto)]

mod opening;

pub use opening::{open_schema, read_script};
