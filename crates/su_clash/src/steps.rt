//! Steps of a derivation.

/// A dependency and two rows, by their numbers from 0. Where the rows agree on the left side, they have to
/// agree on the right one.
#[derive(Clone, Copy, PartialEq, Eq, Debug)]
pub struct Step {
    pub fd: usize,
    pub first: usize,
    pub second: usize,
}
