//! The least pair of rows that clash.
ghost use Rattle.std.specs.Prelude.{◌≡◌, ◌<◌, ◌≤◌, ℕ, List, length, All, MatchOption, IsTrue, IfOk};
ghost use Rattle.std.specs.FinSet as set;
ghost use Rattle.su_state.specs.inside.Sides.{TakesLesser};
ghost use Rattle.su_state.specs.inside.Parts.{HaveOneWidth};
ghost use Rattle.su_state.specs.inside.Pairs.{first_at, AreFirsts, AreMarks, IsLeastMarked};
ghost use Rattle.su_state.specs.inside.Found.{IsLeastPairAt};

use crate::clashes::{is_before, least_clash};
use crate::parts::first_with;
use crate::sides::{Sides, agree};
use std::alloc::Global;
use std::collections::HashMap;
use su_base::{AttrSet, List, NoMemory, Row};
use su_index::Table;

/// The positions of two rows.
#[derive(Clone, Copy)]
pub struct Pair {
    pub first: usize,
    pub second: usize,
}

/// For each row the position of the first one with its left part.
fn firsts_of(alloc: Global, left: AttrSet, rows: &[Row]) -> Result<List<usize>, NoMemory>
    requires { All (λ row. length row ≤ 32) rows.now }
    ensures { IfOk result (AreFirsts left rows.now) }
{
    let mut notes = HashMap::new(alloc);
    let mut firsts = List::new(alloc);
    for position in 0..rows.len() {
        let first = first_with(alloc, left, &mut notes, &rows[position], position)?;
        firsts.push(first)?;
    }
    Ok(firsts)
}

/// Marks the first ones from which a row with their left part differs on the right.
fn marks_of(
    alloc: Global,
    sides: &Sides,
    rows: &[Row],
    firsts: &[usize],
) -> Result<Vec<bool>, NoMemory>
    requires few { All (λ row. length row ≤ 32) rows.now }
    requires width { HaveOneWidth rows.now }
    requires firsts { AreFirsts sides.now.left rows.now firsts.now }
    ensures { IfOk result (λ marks. AreMarks sides.now.right rows.now firsts.now (length rows.now) marks.items) }
{
    let mut marks = Vec::from_elem(alloc, false, rows.len())?;
    for position in 0..rows.len() {
        let first = firsts[position];
        if !agree(sides.right, &rows[position], &rows[first]) {
            marks[first] = true;
        }
    }
    Ok(marks)
}

/// The position of the lesser of the row and the one that stood so far.
fn lesser_row(rows: &[Row], least: Option<usize>, position: usize) -> Option<usize>
    requires within { position < length rows.now }
    requires least { MatchOption least (0 ≤ 0) (λ q. q < length rows.now) }
    ensures { TakesLesser rows.now least position result }
{
    match least {
        Some(q) => {
            if is_before(&rows[position], &rows[q]) {
                Some(position)
            } else {
                Some(q)
            }
        }
        None => Some(position),
    }
}

/// The least of the rows whose first one is marked.
fn least_marked(rows: &[Row], firsts: &[usize], marks: &[bool]) -> Option<usize>
    requires firsts { length firsts.now ≡ length rows.now }
    requires within { (p : ℕ) → p < length rows.now → first_at firsts.now p < length marks.now }
    ensures { IsLeastMarked rows.now firsts.now marks.now (length rows.now) result }
{
    let mut least = None;
    for position in 0..rows.len() {
        if marks[firsts[position]] {
            least = lesser_row(rows, least, position);
        }
    }
    least
}

/// The least row that clashes with some row, and the least such row: three passes over the rows, in
/// memory for the values of the left sides and a number a row.
pub fn least_pair(alloc: Global, table: &Table, sides: &Sides) -> Result<Option<Pair>, NoMemory>
    requires few { table.now.width ≤ 32 }
    requires some { (c : ℕ) × IsTrue (set.contains sides.now.left c) × (c < table.now.width) }
    ensures { IfOk result (IsLeastPairAt sides.now table.now.rows) }
{
    let rows = table.as_slice();
    let firsts = firsts_of(alloc, sides.left, rows)?;
    let marks = marks_of(alloc, sides, rows, firsts.as_slice())?;
    match least_marked(rows, firsts.as_slice(), marks.as_slice()) {
        Some(first) => match least_clash(table, sides, &rows[first]) {
            Some(second) => Ok(Some(Pair { first, second })),
            None => Ok(None),
        },
        None => Ok(None),
    }
}
