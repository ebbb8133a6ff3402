//! The lines of a clash of stored rows and dependencies.
//!
//! Each step is told by the values of its two rows and by the attributes on which they agree, so that the
//! lines can be followed without the schema at hand.
#![tactic(auto)]

mod parts;
mod telling;

pub use telling::clash_text;
