//! The lines of what joins and what dangles in the rows of a database.
//!
//! Which objects are joined, those of each maximal object and of the cores of cyclic ones, says the caller.
//! The findings of one scope are held at a time, beside the text.
#![tactic(auto)]

mod crossing;
mod object_lines;
mod scopes;
mod telling;

pub use scopes::Scope;
pub use telling::dangling_text;
