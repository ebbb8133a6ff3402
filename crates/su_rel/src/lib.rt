//! A set of rows of one width, by position.
//!
//! A relation decides whether a row is there. Its rows all differ and have its width; contracts see
//! them as a list by position, beside the width. A look-up, an insert and a remove take the time to
//! hash the row, whatever the number of rows; no row is ever copied. A remove moves the last row to
//! the place that comes free. It keeps no order of values: a table does.
#![tactic(auto)]

mod crossing;
mod relations;

pub use relations::Relation;
