//! What a search looks for.
use crate::nets::Net;
use crate::search::Order;

/// A target for each masked one of so many rows, each two of which agree by the net.
#[derive(Drop)]
pub struct Aim<'a> {
    pub net: &'a Net,
    pub rows: usize,
    pub mask: u64,
    pub order: Order,
}
