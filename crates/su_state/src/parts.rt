//! Whether a dependency holds on many rows, in one pass.
ghost use Rattle.std.specs.Prelude.{◌≡◌, ◌<◌, ◌≤◌, ◌++◌, List, length, All, IfOk};
ghost use Rattle.std.specs.Bool.{OnTrue};
ghost use Rattle.su_state.specs.inside.Sides.{row_at};
ghost use Rattle.su_state.specs.inside.Parts.{part_of, noted_in, Notes, HaveOneWidth};
ghost use Rattle.su_state.specs.inside.Found.{NoneClash};

use crate::sides::{Sides, agree};
use std::alloc::Global;
use std::collections::HashMap;
use su_base::{AttrSet, List, NoMemory, Row};

/// Copies of the row's values in the columns.
fn part(alloc: Global, columns: AttrSet, row: &Row) -> Result<Row, NoMemory>
    requires { length row.now ≤ 32 }
    ensures { IfOk result (λ part. part ≡ part_of columns row.now) }
{
    let mut part = List::new(alloc);
    for c in 0..row.len() {
        if columns.contains(c as u8) {
            part.push(row.get(c).copy(alloc)?)?;
        }
    }
    Ok(part)
}

/// The position that is noted under the row's left part; where none is, this one is noted.
pub fn first_with(
    alloc: Global,
    left: AttrSet,
    notes: &mut HashMap<Row, usize>,
    row: &Row,
    position: usize,
) -> Result<usize, NoMemory>
    requires { length row.now ≤ 32 }
    ensures { IfOk result (Notes left (noted_in notes.old) (noted_in notes.new) row.now position) }
{
    let values = part(alloc, left, row)?;
    if let Some(first) = notes.get(&values) {
        return Ok(*first);
    }
    match notes.insert(values, position) {
        Ok(_) => Ok(position),
        Err(_) => Err(NoMemory),
    }
}

/// The row at the position, where the second list goes on behind the first.
fn row_in_both<'a>(stored: &'a [Row], more: &'a [Row], position: usize) -> &'a Row
    requires { position < length (stored.now ++ more.now) }
    ensures { result.now ≡ row_at (stored.now ++ more.now) position }
{
    if position < stored.len() {
        &stored[position]
    } else {
        &more[position - stored.len()]
    }
}

/// Whether no two of the rows clash, those of both lists taken together. Each is held once against the
/// first one with its left part, in memory for the values of the left sides.
pub fn none_clash(
    alloc: Global,
    sides: &Sides,
    stored: &[Row],
    more: &[Row],
) -> Result<bool, NoMemory>
    requires stored { All (λ row. length row ≤ 32) stored.now }
    requires more { All (λ row. length row ≤ 32) more.now }
    requires width { HaveOneWidth (stored.now ++ more.now) }
    ensures { IfOk result (λ none. OnTrue none (NoneClash sides.now (stored.now ++ more.now))) }
{
    let mut notes = HashMap::new(alloc);
    for position in 0..stored.len() + more.len() {
        let row = row_in_both(stored, more, position);
        let first = first_with(alloc, sides.left, &mut notes, row, position)?;
        if !agree(sides.right, row, row_in_both(stored, more, first)) {
            return Ok(false);
        }
    }
    Ok(true)
}
