//! Where a text goes wrong: the first place where no form of the language goes on, and what could have stood there.
#![tactic(auto)]

mod blanks;
mod choosing;
mod conditions;
mod definitions;
mod faults;
mod finding;
mod firsts;
mod numbers;
mod queries;
mod quoting;
mod runs;
mod signs;
mod sorts;
mod spots;
mod starts;
mod statements;
mod words;

pub use faults::Fault;
pub use finding::{definition_fault, script_fault, statement_fault};
pub use sorts::{Sort, Word, spelling};
