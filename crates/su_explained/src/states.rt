//! What is known of the lines before a line.

use crate::kinds::Kind;

/// The kind of the last line, how many terms have begun and how many of them are known to be kept;
/// of the last term how many rows it has, how many of them are kept, and of how many of these the
/// sources are told; and how many maximal objects there are.
#[derive(Clone, Copy)]
pub struct State {
    pub last: Option<Kind>,
    pub terms: usize,
    pub kept_terms: usize,
    pub rows: usize,
    pub kept: usize,
    pub sources: usize,
    pub maximal: usize,
}

/// Before the first line.
pub const START: State = State {
    last: None,
    terms: 0,
    kept_terms: 0,
    rows: 0,
    kept: 0,
    sources: 0,
    maximal: 0,
};
