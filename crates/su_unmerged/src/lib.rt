//! Laws of terms that the dependencies left unmerged.
//!
//! su_steps closes each term under the dependencies: rows of it that agree on a left side share the
//! symbols of the right side. Here are the terms before that, in which the equalities of the condition
//! and the attributes that a variable's objects share merge symbols and nothing else does. They are what
//! the query is over any universal relation, and over those that meet the dependencies the two have the
//! same answers. Each law is the contract of a function that does nothing, and no code rests on this
//! crate.
#![tactic(auto)]

pub mod laws;
