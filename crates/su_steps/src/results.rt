//! Terms.
use su_base::List;
use su_tableau::Tableau;

/// What a row of a term is for: a variable of the query and an object of the schema, by number.
#[derive(Clone, Copy, PartialEq, Eq, Debug)]
pub struct Origin {
    pub variable: u8,
    pub object: u8,
}

/// The tableau of one disjunct and one choice.
#[derive(Drop)]
pub struct Term {
    /// The number of the disjunct.
    pub disjunct: u8,
    /// For each variable, in order, the number of its maximal object.
    pub choice: List<u8>,
    /// For each row of the tableau, in order, what it is for.
    pub origins: List<Origin>,
    pub tableau: Tableau,
}
