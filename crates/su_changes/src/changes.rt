//! Rows put in or taken out.
use su_base::{List, Row};

/// Rows that are put into a relation, or taken out of it.
#[derive(Drop)]
pub struct Change {
    /// The relation's number.
    pub relation: u8,
    /// In any order; a row may stand here twice.
    pub rows: List<Row>,
    /// Whether they are put in.
    pub is_in: bool,
}
