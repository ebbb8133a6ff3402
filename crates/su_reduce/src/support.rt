//! What takes part in the answer of a term, in numbers.
use su_base::List;

/// How many candidates a row has; and how many of them are left, unless its term is cyclic.
#[derive(Clone, Copy, PartialEq, Eq, Debug)]
pub struct Counted {
    pub row: u8,
    pub candidates: u64,
    pub left: Option<u64>,
}

/// A term by its number, whether its rows are acyclic, and what is counted of each.
#[derive(Debug, Drop)]
pub struct Support {
    pub term: u16,
    pub acyclic: bool,
    pub rows: List<Counted>,
}
