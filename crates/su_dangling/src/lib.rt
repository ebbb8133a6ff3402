//! Which rows of the objects' views take part in a join of views, and which dangle.
//!
//! The views of the objects are joined by su_exec, once for each object that is asked for: a row for each
//! object, over its relation's rows, with a variable for each attribute. A view by itself is a join of
//! one object. Where the objects are acyclic no more is held than their rows, and the time of each join
//! goes with these rows; the lists of a view and of those that take part are then compared in order.
//! Whether the objects form a cycle isn't asked here, nor which objects are to be joined.
#![tactic(auto)]

mod counting;
mod crossing;
mod taking;
mod tasks;

pub use counting::{Dangling, dangling_in, dangling_of};
