//! The least row of a table with which a row clashes.
ghost use Rattle.std.specs.Prelude.{◌≡◌, ◌<◌, ◌≤◌, ℕ, length, slice_get, Some, IsTrue, MatchOption};
ghost use Rattle.std.specs.Ordering.{is_lt};
ghost use Rattle.std.specs.FinSet as set;
ghost use Rattle.su_base.specs.Value.{compare_lists};
ghost use Rattle.su_state.specs.inside.Sides.{IsLesser};
ghost use Rattle.su_state.specs.inside.Found.{IsLeastClashAt, IsAlikeAt, NoneClash};

use crate::sides::{Sides, agree, clash};
use std::cmp::Ordering;
use su_base::{AttrSet, Row, compare_rows};
use su_index::{Alike, Table};

/// Whether the row comes before the other.
pub fn is_before(a: &Row, b: &Row) -> bool
    ensures { result ≡ is_lt (compare_lists a.now b.now) }
{
    compare_rows(a, b) == Ordering::Less
}

/// One of the columns: that in which the fewest rows have the row's value.
fn fewest(table: &Table, columns: AttrSet, row: &Row) -> u8
    requires width { length row.now ≡ table.now.width }
    requires some { (c : ℕ) × IsTrue (set.contains columns c) × (c < table.now.width) }
    ensures column { IsTrue (set.contains columns result) }
    ensures within { result < table.now.width }
{
    let mut best = None;
    let mut least = usize::MAX;
    for c in 0..table.width() {
        if columns.contains(c) {
            let count = table.matching(c, row.get(c as usize));
            if count <= least {
                best = Some(c);
                least = count;
            }
        }
    }
    match best {
        Some(c) => c,
        None => unreachable!(),
    }
}

/// The position of the lesser of two rows with which the row clashes.
fn lesser(
    table: &Table,
    sides: &Sides,
    row: &Row,
    least: Option<usize>,
    position: usize,
) -> Option<usize>
    requires width { length row.now ≡ table.now.width }
    requires few { table.now.width ≤ 32 }
    requires within { position < length table.now.rows }
    requires least { MatchOption least (0 ≤ 0) (λ q. q < length table.now.rows) }
    ensures { IsLesser sides.now table.now.rows row.now least position result }
{
    // For the proof: each row is as wide as the table.
    let _rows = table.as_slice();
    let other = table.row(position);
    if !clash(sides, row, other) {
        return least;
    }
    match least {
        Some(q) => {
            if is_before(other, table.row(q)) {
                Some(position)
            } else {
                Some(q)
            }
        }
        None => Some(position),
    }
}

/// The position of the least row with which the row clashes. Only the rows that have the row's value
/// in one column of the left side are looked at.
pub fn least_clash(table: &Table, sides: &Sides, row: &Row) -> Option<usize>
    requires width { length row.now ≡ table.now.width }
    requires few { table.now.width ≤ 32 }
    requires some { (c : ℕ) × IsTrue (set.contains sides.now.left c) × (c < table.now.width) }
    ensures { IsLeastClashAt sides.now table.now.rows row.now result }
{
    let column = fewest(table, sides.left, row);
    let value = row.get(column as usize);
    let mut least = None;
    for k in 0..table.matching(column, value) {
        let position = table.matched(column, value, k);
        least = lesser(table, sides, row, least, position);
    }
    least
}

/// The position of a row that has the row's values in the columns. The rows that have its value in one
/// of them are looked at, up to the first.
fn alike_by_column(table: &Table, columns: AttrSet, row: &Row) -> Option<usize>
    requires width { length row.now ≡ table.now.width }
    requires few { table.now.width ≤ 32 }
    requires some { (c : ℕ) × IsTrue (set.contains columns c) × (c < table.now.width) }
    ensures { IsAlikeAt columns table.now.rows row.now result }
{
    // For the proof: each row is as wide as the table.
    let _rows = table.as_slice();
    let column = fewest(table, columns, row);
    let value = row.get(column as usize);
    for k in 0..table.matching(column, value) {
        let position = table.matched(column, value, k);
        if agree(columns, row, table.row(position)) {
            return Some(position);
        }
    }
    None
}

/// The same: the table's notes tell it first, and mostly at once.
fn alike(table: &Table, columns: AttrSet, row: &Row) -> Option<usize>
    requires width { length row.now ≡ table.now.width }
    requires few { table.now.width ≤ 32 }
    requires some { (c : ℕ) × IsTrue (set.contains columns c) × (c < table.now.width) }
    ensures { IsAlikeAt columns table.now.rows row.now result }
{
    // For the proof: each row is as wide as the table.
    let _rows = table.as_slice();
    match table.alike(columns, row) {
        Alike::Nowhere => return None,
        Alike::MaybeAt(position) => {
            if agree(columns, row, table.row(position)) {
                return Some(position);
            }
        }
        Alike::Unknown => {}
    }
    alike_by_column(table, columns, row)
}

/// The position of the least row with which a new row clashes, where no two rows of the table clash.
/// The rows that agree with the new one on the left side then agree on the right one too, so that the
/// first of them tells for all; only where the new row clashes are they all looked at.
pub fn least_breach(table: &Table, sides: &Sides, row: &Row) -> Option<usize>
    requires width { length row.now ≡ table.now.width }
    requires few { table.now.width ≤ 32 }
    requires some { (c : ℕ) × IsTrue (set.contains sides.now.left c) × (c < table.now.width) }
    requires keeps { NoneClash sides.now table.now.rows }
    ensures { IsLeastClashAt sides.now table.now.rows row.now result }
{
    // For the proof: each row is as wide as the table.
    let _rows = table.as_slice();
    match alike(table, sides.left, row) {
        Some(position) => {
            if agree(sides.right, row, table.row(position)) {
                None
            } else {
                least_clash(table, sides, row)
            }
        }
        None => None,
    }
}
