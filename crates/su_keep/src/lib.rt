//! The file of a database: an SQLite database with a table for each relation.
//!
//! A relation's table has its name, its columns and its rows, the rows as the primary key over all
//! columns; one more table holds the schema's text. A file is opened as a database, and what is in it
//! is checked as if it were loaded. Changes are kept by groups, each in one commit.
#![tactic(auto)]

mod beginning;
mod closing;
mod faults;
mod files;
mod keeping;
mod leaving;
mod lines;
mod listing;
mod names;
mod opening;
mod reading;
mod refusing;
mod writing;

pub use faults::{KeepFault, OpenFault, RowFault};
pub use files::open;
pub use keeping::Keeper;
pub use leaving::{Leftover, Refusal};
pub use lines::line_of;
pub use opening::open_over;
