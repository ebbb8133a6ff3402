//! Conditions on a list of values, and their disjunctive form.
//!
//! A condition is a tree of comparisons under not, all of and any of; all of nothing is true, any of
//! nothing is false. It is evaluated as it stands, in time linear in its size and without memory.
//! Its disjuncts are counted in linear time; they are made, in a fixed order, where there are at most
//! 64. Negations go into the comparisons, and no two disjuncts are merged, so that a term can be
//! traced to its disjunct. A condition is true exactly where all comparisons of some disjunct hold.
#![tactic(auto)]

mod conditions;
mod crossing;
mod forms;
pub mod laws;
mod listing;
mod literals;
mod operators;

pub use conditions::{Cond, Condition, copy, truth};
pub use forms::{Disjunct, disjunct_count, disjuncts};
pub use listing::comparisons;
pub use literals::{Literal, Operand};
pub use operators::Op;
