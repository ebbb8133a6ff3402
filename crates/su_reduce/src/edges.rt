//! Edges and ears.
use su_base::{List, Row};
use su_tableau::Sym;

/// Symbols, and the value lists that they may be given together.
#[derive(Debug, Drop)]
pub struct Edge {
    pub cells: List<Sym>,
    pub candidates: List<Row>,
}

/// An edge by its number, and its parent among the edges behind it.
#[derive(Clone, Copy, PartialEq, Eq, Debug)]
pub struct Ear {
    pub edge: u8,
    pub parent: Option<u8>,
}
