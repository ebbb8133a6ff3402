//! A query that is ready to be answered.
use su_base::List;
use su_min::{Minimal, Reduced};
use su_steps::Term;

/// The terms of a query, their tableaux with the kept rows in the same order, and which terms are
/// kept.
#[derive(Drop)]
pub struct Prepared {
    pub terms: List<Term>,
    pub minimals: List<Minimal>,
    pub reduced: Reduced,
}
