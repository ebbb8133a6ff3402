//! Steps 1 to 5 of the interpretation of a query: from a resolved query to its terms.
//!
//! A term stands for one disjunct and one choice of a covering maximal object per variable. It has a
//! row for each variable and each object of its maximal object, and it is closed under the
//! functional dependencies that lie in objects: where two rows have to agree, they have one symbol.
//! Its symbols are numbered, the constants of the equalities before the pairs of variables and
//! attributes, so that su_classes closes them and the least item of a class is its name. Terms aren't
//! minimised here.
#![tactic(auto)]

mod building;
mod choosing;
mod classes;
mod constants;
mod crossing;
mod faults;
pub mod laws;
mod making;
mod objects;
mod questions;
mod results;
mod rows;
mod sourcing;

pub use faults::{StepFault, StepLimit};
pub use making::terms;
pub use results::{Origin, Term};
pub use sourcing::{sources, sources_within};
