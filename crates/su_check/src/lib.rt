//! Certificates that the kept rows of tableaux are least, and their checker.
//!
//! A certificate gives for each term its tableau, its kept rows, a fold of all rows into them, and for
//! each kept row a tree that tries all targets of one row after another, and so shows that no mapping
//! leaves the row out. `check` follows the trees and searches for nothing. The rows that have a target
//! go there under one list of symbols: of each variable that has an image the place of it is known, a
//! pair of rows and a column, and a row joins them exactly where no cell of it speaks against it. Which
//! targets come into question is looked up in sets of rows, made once for each term. So a node costs a
//! step for each column, and as many for each branch. How a certificate is made plays no part.
//!
//! For callers: `check` is the one call. Want of memory is its only error: what isn't a certificate gets its
//! verdict too. It takes fewer than 2^32 bytes; a term costs the square of its rows times its columns.
#![tactic(auto)]

mod boards;
mod cells;
mod certificates;
mod checking;
mod claims;
mod fitting;
mod folds;
mod forms;
mod guides;
mod items;
mod kinds;
pub mod laws;
mod lines;
mod nodes;
mod numbers;
mod reading;
mod refuting;
mod sending;
mod sets;
mod trees;
mod variables;
mod verdicts;

pub use certificates::{Certificate, RowTree, StatedTerm};
pub use checking::check;
pub use nodes::{Branch, Node};
pub use verdicts::{Checked, Fault};
