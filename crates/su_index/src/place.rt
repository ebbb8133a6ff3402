//! A place among the entries of an index.

/// The `at`-th entry of a chunk, or the place past its last one.
#[derive(Clone, Copy)]
pub(crate) struct ChunkPlace {
    pub(crate) chunk: usize,
    pub(crate) at: usize,
}
