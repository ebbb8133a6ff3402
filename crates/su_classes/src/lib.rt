//! The least classes of numbered items under equalities and functional dependencies.
//!
//! Items stand in rows, each at an attribute; a row may have only some attributes, and a dependency
//! binds the rows that have all of its. Classes are trees in one table, each item with its parent: two
//! classes are merged by giving the greater root the lesser one for its parent, and paths are halved as
//! they are gone. A worklist merges first: rows are found by their left sides, and of two classes that
//! are merged only the cells of the smaller one are looked at again, so chains of merges take near-linear
//! time. For each dependency a pass over the rows then finds the first row with each left side by a hash
//! of it, and joins every row with its first at the right side; passes go on until none merges, mostly
//! one. That the classes are closed rests on these passes alone.
//! Whoever has symbols numbers them first, so that the least item of a class is its name.
#![tactic(auto)]

mod closing;
mod crossing;
mod firsts;
mod items;
mod left_sides;
mod ruled;
mod rules;
mod rushing;
mod sweeping;
mod symbols;
mod tables;
mod worklist;

pub use closing::close;
pub use items::{Placed, Together};
pub use symbols::symbol_at;
