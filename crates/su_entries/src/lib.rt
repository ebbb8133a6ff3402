//! Rows as entries of the numbered trees of a store: a tree is read whole, and rows are put in or taken out.
//!
//! An entry has the values of its row, numbers and texts as they are; the trees are sets of rows. What
//! is read is checked: an entry with another value, or with a text that is not UTF-8, is told by its
//! number. What was written stands in the file once the store commits, and not before.
#![tactic(auto)]

mod changing;
mod crossing;
mod entries;
mod faults;
pub mod laws;
mod reading;

pub use changing::{put_in, take_out};
pub use entries::{fill_entry, row_of};
pub use faults::ReadFault;
pub use reading::read_rows;
