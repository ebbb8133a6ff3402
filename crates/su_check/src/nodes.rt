//! Trees that show why a row can't be left out.
use su_base::List;

/// A node names a row, and has a branch for each target that fits it, ascending.
#[cycle(tree)]
#[derive(Debug, Drop)]
pub struct Node {
    pub row: u8,
    pub next: List<Branch>,
}

/// A target of the row that the node before names, and the node for the case that the row goes there.
#[cycle(tree)]
#[derive(Debug, Drop)]
pub struct Branch {
    pub target: u8,
    pub node: Node,
}
