//! What the notes of a table tell of a row.

/// Where a row with a row's values in some columns stands: nowhere, at the position if anywhere as far
/// as the notes know, or where they don't tell.
#[derive(Clone, Copy)]
pub enum Alike {
    Nowhere,
    MaybeAt(usize),
    Unknown,
}
