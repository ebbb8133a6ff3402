//! The schema of a universal relation: attributes, stored relations, objects, dependencies and
//! declared maximal objects, each numbered from 0 in the order in which it was declared.
//!
//! A `Schema` is valid at every moment: numbers in range, names apart, the pairs of an object one
//! to one and of equal kinds, every limit met. A definition is added whole or not at all. Names are
//! found in expected constant time, an object's column by a look through at most 32 pairs; readers
//! take no memory. What the definitions imply is not computed here.
#![tactic(auto)]

mod builder;
mod copying;
mod crossing;
mod definitions;
mod faults;
mod joining;
mod links;
mod naming;
mod readers;
mod schemas;
mod wellnamed;

pub use copying::copy_columns;
pub use definitions::{Definition, Pair};
pub use faults::{SchemaFault, SchemaLimit};
pub use schemas::Schema;
