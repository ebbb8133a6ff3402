//! Certificates that kept rows are least: their trees, and their text.
//!
//! A node of a tree names the row with the fewest targets, and each target of it begins a branch. One
//! list of symbols sends rows to their targets exactly where each two of them agree, so each row keeps
//! the set of its targets in a machine word, and a branch cuts all sets by what agrees with its pair.
//! These sets are made once for each tableau: for 64 rows 2 MiB. A node takes a pass over the rows, and
//! one more for each branch. The budget of nodes counts down. `write` is linear in the text. Whether a
//! certificate is good is su_check's to say; this crate searches, and that one doesn't.
#![tactic(auto)]

mod certifying;
mod crossing;
mod faults;
mod growing;
pub mod laws;
mod nets;
mod places;
mod refuting;
mod symbols;
mod writing;

pub use certifying::certify;
pub use faults::RefuteFault;
pub use refuting::{Refuted, refute};
pub use writing::write;
