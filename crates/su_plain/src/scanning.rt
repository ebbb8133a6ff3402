//! The rows that have a value in a column, by a look at each.
ghost use Rattle.std.specs.Prelude.{◌≡◌, ◌<◌, IfOk, length};
ghost use Rattle.su_index.specs.Matches.{AreAdded, has_value, matches};
ghost use Rattle.su_plain.specs.inside.Scans.{AddsNext};

use std::alloc::AllocError;
use su_base::{Row, Value};

/// Whether the row has the value in the column.
fn has(row: &Row, column: u8, value: &Value) -> bool
    ensures { result ≡ has_value column value.now row.now }
{
    match row.as_slice().get(column as usize) {
        Some(found) => found.compare(value).is_eq(),
        None => false,
    }
}

/// How many of the rows have the value in the column.
pub(crate) fn count_with(rows: &[Row], column: u8, value: &Value) -> usize
    ensures { result ≡ matches column value.now rows.now }
{
    let mut count = 0;
    for row in rows {
        if has(row, column, value) {
            count += 1;
        }
    }
    count
}

/// Puts position i in, if the row there has the value in the column.
fn add_if(
    rows: &[Row],
    column: u8,
    value: &Value,
    i: usize,
    positions: &mut Vec<usize>,
) -> Result<(), AllocError>
    requires { i < length rows.now }
    ensures { IfOk result (λ _. AddsNext column value.now rows.now i positions.old.items positions.new.items) }
{
    if has(&rows[i], column, value) {
        positions.push(i)?;
    }
    Ok(())
}

/// Puts the positions of the rows that have the value in the column behind those that are there.
pub(crate) fn add_all(
    rows: &[Row],
    column: u8,
    value: &Value,
    positions: &mut Vec<usize>,
) -> Result<(), AllocError>
    ensures { IfOk result (λ _. AreAdded column value.now rows.now positions.old.items positions.new.items) }
{
    for i in 0..rows.len() {
        add_if(rows, column, value, i, positions)?;
    }
    Ok(())
}
