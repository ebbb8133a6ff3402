//! A store of rows without an index: each look-up is a look at each row.
//!
//! `plain_tables` copies the rows of su_index's tables, and a `PlainRows` is what a join has them from. It
//! shows what the trait `Rows` asks of a store, serves small stores as it is, and stands beside the
//! tables in tests. A look-up takes the time of all rows of its relation.
#![tactic(auto)]

mod rows;
mod scanning;
mod tables;

pub use rows::PlainRows;
pub use tables::{PlainTable, plain_tables};
