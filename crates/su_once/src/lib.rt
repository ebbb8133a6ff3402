//! Laws of uniqueness: of what a definition describes there is one.
//!
//! Each is the contract of a function that does nothing, and stands in the module of what it tells of.
//! From the lists of pieces up to the reply to a statement, one is told from the other: so two runs of
//! the program agree, however many workers there are. No code rests on this crate.
#![tactic(auto)]

pub mod answers;
pub mod closures;
pub mod readings;
pub mod replies;
pub mod states;
pub mod tableaux;
pub mod terms;
pub mod texts;
pub mod verdicts;
pub mod windows;
