//! What a certificate claims.
use crate::nodes::Node;
use su_base::{Kind, List};
use su_tableau::Sym;

/// A row, and the tree that shows why it can't be left out.
#[derive(Debug, Drop)]
pub struct RowTree {
    pub row: u8,
    pub node: Node,
}

/// A tableau with its kept rows, its fold, and a tree for each kept row.
#[derive(Debug)]
pub struct StatedTerm {
    pub number: u32,
    pub head: List<Sym>,
    pub rows: List<List<Sym>>,
    pub kept: List<u8>,
    pub fold: List<u8>,
    pub trees: List<RowTree>,
}

/// Not derived, so that it is a single call wherever a term goes out of scope.
impl Drop for StatedTerm {
    fn drop(self) {
        let StatedTerm {
            number: _,
            head: _,
            rows: _,
            kept: _,
            fold: _,
            trees: _,
        } = self;
    }
}

/// The kinds of the columns, and the terms.
#[derive(Debug, Drop)]
pub struct Certificate {
    pub kinds: List<Kind>,
    pub terms: List<StatedTerm>,
}
