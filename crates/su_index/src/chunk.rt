//! A piece of an index.
use crate::entry::Entry;
use std::collections::VecDeque;

/// Entries that follow one another in an index.
#[derive(Drop)]
pub(crate) struct Chunk {
    pub(crate) entries: VecDeque<Entry>,
}
