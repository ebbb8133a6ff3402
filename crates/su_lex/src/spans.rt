//! Where something stands.

/// The bytes from `start` on, before `end`, both counted from 0 in the bytes that were handed in.
#[derive(Clone, Copy, PartialEq, Eq, Debug)]
pub struct Span {
    pub start: usize,
    pub end: usize,
}
