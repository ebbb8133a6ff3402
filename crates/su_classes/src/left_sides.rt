//! What rows are compared by.
use su_fd::Fd;

/// A dependency, the attributes of its left side, and a table in which rows have the same
/// representatives there where they agree on it.
#[derive(Drop)]
pub struct LeftSide<'a> {
    pub table: &'a [usize],
    pub fd: &'a Fd,
    pub left: &'a [u8],
}
