//! Tables: relations with an ordered index per column.
//!
//! A table decides how many rows have a value in a column, and which is the k-th of them by position.
//! Contracts see it as they see a relation, a width and the rows by position; the indexes appear in
//! none. A table keeps no more than 2^32 - 2 rows, and ranges of values aren't asked for.
//!
//! An index holds an entry of eight bytes for each row, in order of (lead, value, position), in chunks;
//! a lead is a number made of all of the value. A look-up is a binary search among chunks and one within
//! a chunk, and reads a row only where leads are equal. A remove takes no memory; an insert mostly moves
//! the entries of one chunk. Where a caller asks for it, rows are also noted by their values in several
//! columns at once, for one look into a hash table. docs/ARCHITECTURE.md has the layout as a picture,
//! when chunks are split and put together, and when a note goes.
#![tactic(auto)]

mod alike;
mod chunk;
mod chunks;
mod columns;
mod crossing;
mod edits;
mod entry;
mod finding;
mod found;
mod index;
mod keeping;
pub mod laws;
mod lead;
mod notes;
mod order;
mod place;
mod rows;
mod sorting;
mod tables;

pub use alike::Alike;
pub use found::Found;
pub use rows::{Rows, TableRows};
pub use tables::Table;
