//! Gates by which tests see which jobs run at the same time, and in which order.
//!
//! They are no part of any program, and say nothing by contracts: what a gate has seen is read when the
//! jobs are over. The tests of su_par and of the crates above it share them.
#![tactic(auto)]

mod in_turn;
mod meeting;

pub use in_turn::InTurn;
pub use meeting::Meeting;
