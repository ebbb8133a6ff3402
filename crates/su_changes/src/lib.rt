//! What statements change, as it is handed to what keeps a database.
//!
//! A change puts rows into the set of a relation's rows, or takes rows out of it: rows that are there
//! already stay, and rows that aren't there are passed over. `LeadTo` says what changes, one after
//! another, make of a database, `IsExtension` what definitions make of its schema. No code stands here.
#![tactic(auto)]

mod changes;

pub use changes::Change;
