//! Laws of matches, for those who stand on them. Each call does nothing: its contract is the law.
ghost use Rattle.std.specs.Prelude.{◌≡◌, ◌<◌, ℕ, [], length, Some, IsTrue, ◌↔◌, slice_get, slice_index_or};
ghost use Rattle.su_index.specs.Matches.{has_value, matches, IsMatch};

use su_base::{Row, Value};

/// A row has a value in a column exactly where the value stands there.
pub fn a_row_has_what_stands_in_it(row: &Row, column: u8, value: &Value)
    ensures { IsTrue (has_value column value.now row.now) ↔ (slice_get row.now column ≡ Some value.now) }
{}

/// Each row that has the value is one of its matches.
pub fn each_row_with_the_value_is_a_match(rows: &[Row], column: u8, value: &Value, position: usize)
    requires within { position < length rows.now }
    requires has { IsTrue (has_value column value.now (slice_index_or rows.now position [])) }
    ensures { (k : ℕ) × (k < matches column value.now rows.now) × IsMatch column value.now rows.now k position }
{}

/// No two rows are the k-th match.
pub fn a_match_is_one_row(rows: &[Row], column: u8, value: &Value, k: usize, p: usize, q: usize)
    requires first { IsMatch column value.now rows.now k p }
    requires second { IsMatch column value.now rows.now k q }
    ensures { p ≡ q }
{}
