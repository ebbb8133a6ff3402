//! What one join gives.
use su_base::{List, Row};

/// The rows of a join, unless there are more than an answer may have.
#[derive(Drop)]
pub struct Found {
    pub rows: Option<List<Row>>,
}
