//! Why no universal relation meets the dependencies and includes the stored rows: steps by which two
//! different constants would have to be equal.
//!
//! The members of the views are chased as su_window does; where two constants meet, they are chased once
//! more, and of what was made equal it is kept why: from the clash back, only the steps that it rests on are
//! left. This search is quick, and nothing rests on it: its steps are replayed by a checker, which is all that
//! contracts speak of, and taken out one after another as long as the rest still refutes the rows. Should the
//! checker refuse them, a plain chase, slow and complete, finds others. That no fewer steps refute the rows is
//! told of one step alone.
#![tactic(auto)]

mod chasing;
mod clashing;
mod columns;
mod crossing;
mod faults;
mod forest;
mod members;
mod padding;
mod renaming;
mod replaying;
mod searching;
mod slicing;
mod steps;
mod thinning;

pub use clashing::{Clash, find_clash};
pub use faults::ClashFault;
pub use members::{Member, values_of};
pub use steps::Step;
