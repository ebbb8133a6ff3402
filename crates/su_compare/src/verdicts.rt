//! What comparing the terms of two queries says.
use su_base::{List, Row};
use su_map::Mapping;

/// Whether each row of the first query is one of the second over every universal relation that meets
/// the dependencies.
#[derive(Debug, Drop)]
pub enum Verdict {
    /// It is. For each term of the first, in order, why.
    Within(List<Reason>),
    /// It isn't: the least term of the first that isn't settled, a universal relation that meets the
    /// dependencies, and a row of the first query over it that is none of the second.
    Apart {
        term: u16,
        universe: List<Row>,
        head: Row,
    },
}

/// Why the rows of a term of the first query are rows of the second; none where it has no rows.
#[derive(Debug, Drop)]
pub struct Reason {
    pub term: u16,
    pub by: Option<Found>,
}

/// The least term of the second query that maps into the chased term, and its first mapping.
#[derive(Debug, Drop)]
pub struct Found {
    pub term: u16,
    pub mapping: Mapping,
}
