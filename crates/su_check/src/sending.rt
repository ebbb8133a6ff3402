//! Rows with their targets, and where symbols have their images.

/// A row, and the row to which it goes.
#[derive(Clone, Copy, Debug)]
pub struct Sent {
    pub row: u8,
    pub target: u8,
}

/// A pair of the partial list and a column: the symbol that the row has there goes to the one that the
/// target has there. A place counts only for a symbol that its row does have there, so that nothing is
/// undone when the list gets shorter.
#[derive(Clone, Copy, Debug)]
pub struct StepColumn {
    pub step: usize,
    pub column: usize,
}
