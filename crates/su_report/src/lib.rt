//! The findings of a schema as lines of text.
//!
//! A finding is a line that begins with `fault` or `note`; below it, behind two spaces, stands what to do,
//! as a definition in the form of the grammar in which NAME is a name to be chosen. The lines come in one
//! order: what no object uses, dependencies, keys and forms of objects, maximal objects, pairs of
//! attributes. Everything is found before it is written; it takes memory for the text, and for the
//! findings of one kind at a time.
#![tactic(auto)]

mod advising;
mod cycle_lines;
mod dependency_lines;
mod loose_ends;
mod maximal_parts;
mod notes;
mod object_lines;
mod object_parts;
mod pair_lines;
mod pair_parts;
mod parts;
mod reporting;
mod unused_lines;

pub use reporting::{Report, report_on};
