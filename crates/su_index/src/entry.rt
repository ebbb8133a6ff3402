//! What an index holds of a row.

/// The position of a row, with the lead of the value in the column of the index: a search reads the
/// row only where the lead is that of the value it looks for.
#[derive(Clone, Copy)]
pub(crate) struct Entry {
    pub(crate) lead: u32,
    pub(crate) position: u32,
}
