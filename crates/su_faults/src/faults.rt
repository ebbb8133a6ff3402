//! Where a text goes wrong.
use crate::sorts::Sort;
use su_base::List;

/// The first place where a text goes wrong, counted in bytes from 0, and what could have stood there.
#[derive(Debug, Drop)]
pub struct Fault {
    pub place: usize,
    pub wanted: List<Sort>,
}
