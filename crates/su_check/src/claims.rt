//! What a tree is to show.
use crate::boards::Board;
use crate::certificates::StatedTerm;
use crate::guides::Guide;

/// That a kept row of the term can't be left out, and what tells which rows can go where.
#[derive(Drop)]
pub struct Claim<'a> {
    pub term: &'a StatedTerm,
    pub board: &'a Board,
    pub guide: &'a Guide,
    pub left_out: u8,
}
