//! What rows have to keep.
use crate::items::Placed;
use crate::rules::Rule;

/// Rows, and the rules that they are to keep.
#[derive(Drop)]
pub struct Ruled<'a> {
    pub rules: &'a [Rule],
    pub rows: &'a [Placed],
}
