//! The chase of rows of symbols under functional dependencies.
//!
//! `close` answers the least classes in which rows that agree on a left side agree on the right side,
//! each with its first symbol for a name, and the clash where two constants meet. `chase` names the
//! rows and the head of a tableau: over every universal relation that meets the dependencies it answers
//! what the tableau does, and nothing where it clashes. Constants and variables are numbered as items,
//! the constants in their order, so that su_classes closes them and the least item of a class is its
//! name; memory goes with the greatest variable. Nothing is minimised here. `freeze` reads the variables
//! of a tableau as new values, so that its rows are a universal relation.
#![tactic(auto)]

mod candidates;
mod chasing;
mod crossing;
mod freezing;
mod naming;
mod numbering;

pub use chasing::{Chased, chase};
pub use freezing::{Frozen, freeze};
pub use naming::{Closed, close};
