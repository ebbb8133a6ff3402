//! What tests of several crates make from numbers: sets of attributes, dependencies and tableaux.
//!
//! It is no part of any program, and crates of tests alone stand on it.
#![tactic(auto)]

mod dependencies;
mod sets;
mod tableaux;

pub use dependencies::{Sides, fd, fds_of};
pub use sets::{is_below, set_of};
pub use tableaux::{COURSES, JONES, Parts, tableau};
