//! What is kept of a union of terms.
use su_base::List;
use su_map::Mapping;

/// A dropped term, the kept term of least number that covers it, and the first mapping of the kept
/// rows of that one into those of the dropped one.
#[derive(Debug, Drop)]
pub struct Cover {
    pub dropped: u16,
    pub by: u16,
    pub mapping: Mapping,
}

/// The numbers of the kept terms and the covers of the dropped ones, both ascending.
#[derive(Debug, Drop)]
pub struct Reduced {
    pub kept: List<u16>,
    pub covers: List<Cover>,
}
