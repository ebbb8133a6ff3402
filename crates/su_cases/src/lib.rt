//! What tests of several crates share: schemas, queries and databases from texts, sets of objects from
//! numbers, and rows as texts.
//!
//! It is no part of any program, and crates of tests alone stand on it. The functions that only make
//! an input or show an outcome promise nothing by contracts: what is wrong in one of them, the tests
//! show.
#![tactic(auto)]

mod databases;
mod queries;
mod rows;
mod schemas;

pub use databases::stored;
pub use queries::query_of;
pub use rows::{row_of, rows_of, told};
pub use schemas::{BANK, objects_of, schema_of};
