//! Which rows come into question as targets. Whether one is a target is for the test of fitting to say.
ghost use Rattle.std.specs.Prelude.{◌≡◌, ◌<◌, ◌≤◌, ℕ, IfOk, [], length, get_or, All};
ghost use Rattle.su_check.specs.Certificate.{lines_of};
ghost use Rattle.su_check.specs.inside.Widths.{AreWide, IsWithin};
ghost use Rattle.su_check.specs.inside.Boards.{IsReady};
ghost use Rattle.su_check.specs.inside.Guides.{HasCarriers, AreAlike, HasTargets, IsGuide, HasRowsWithImage};

use crate::boards::Board;
use crate::cells::{at, row_at};
use crate::certificates::StatedTerm;
use crate::fitting::{fits, image};
use crate::sending::{Sent, StepColumn};
use crate::sets::{both, with};
use std::alloc::Global;
use su_base::{List, NoMemory};
use su_tableau::{Sym, full};

/// For each row the kept rows to which it can go alone, and for each cell the rows that have its symbol
/// there, as sets in the bits of words. The telling columns are those in which not all rows are alike:
/// the others tell no targets apart.
#[derive(Debug)]
pub struct Guide {
    pub alone: List<u64>,
    pub alike: List<List<u64>>,
    pub telling: List<usize>,
}

/// Not derived, so that it is a single call wherever a guide goes out of scope.
impl Drop for Guide {
    fn drop(self) {
        let Guide {
            alone: _,
            alike: _,
            telling: _,
        } = self;
    }
}

/// The rows that have the symbol in the column.
fn carriers(rows: &[List<Sym>], column: usize, x: &Sym) -> u64
    requires few { length rows.now ≤ 64 }
    requires column { (i : ℕ) → i < length rows.now → column < length (get_or rows.now i []) }
    ensures { HasCarriers rows.now column x.now result }
{
    let mut set = 0;
    for i in 0..rows.len() {
        if at(row_at(rows, i), column).same(x) {
            set = with(set, i);
        }
    }
    set
}

/// For each cell of the row the rows that have its symbol there.
fn alike_to(alloc: Global, rows: &[List<Sym>], row: &[Sym]) -> Result<List<u64>, NoMemory>
    requires few { length rows.now ≤ 64 }
    requires width { (i : ℕ) → i < length rows.now → length (get_or rows.now i []) ≡ length row.now }
    ensures { IfOk result (AreAlike rows.now row.now) }
{
    let mut sets = List::new(alloc);
    for column in 0..row.len() {
        sets.push(carriers(rows, column, at(row, column)))?;
    }
    Ok(sets)
}

/// For each cell of all rows the rows that have its symbol there.
fn all_alike(alloc: Global, rows: &[List<Sym>]) -> Result<List<List<u64>>, NoMemory>
    requires few { length rows.now ≤ 64 }
    requires wide { AreWide rows.now }
    ensures one_each { IfOk result (λ all. length all ≡ length rows.now) }
    ensures rows { IfOk result (λ all. (i : ℕ) → i < length rows.now → AreAlike rows.now (get_or rows.now i []) (get_or all i [])) }
{
    let mut all = List::new(alloc);
    for i in 0..rows.len() {
        all.push(alike_to(alloc, rows, row_at(rows, i))?)?;
    }
    Ok(all)
}

/// The columns in which not all rows have the symbol of this one.
fn telling_in(alloc: Global, alike: &[u64], rows: usize) -> Result<List<usize>, NoMemory>
    requires { rows ≤ 64 }
    ensures { IfOk result (All (λ c. c < length alike.now)) }
{
    let all = full(rows);
    let mut telling = List::new(alloc);
    for column in 0..alike.len() {
        if alike[column] != all {
            telling.push(column)?;
        }
    }
    Ok(telling)
}

/// The columns in which not all rows are alike.
fn telling_of(alloc: Global, alike: &[List<u64>]) -> Result<List<usize>, NoMemory>
    requires { length alike.now ≤ 64 }
    ensures { IfOk result (All (λ c. c < length (get_or alike.now 0 []))) }
{
    if alike.is_empty() {
        return Ok(List::new(alloc));
    }
    telling_in(alloc, alike[0].as_slice(), alike.len())
}

/// The kept rows to which the row can go alone.
fn alone(
    alloc: Global,
    term: &StatedTerm,
    board: &Board,
    places: &mut [StepColumn],
    row: u8,
) -> Result<u64, NoMemory>
    requires ready { IsReady (lines_of term.now) board.now [] places.old }
    requires few { length term.now.rows ≤ 64 }
    requires row { row < length term.now.rows }
    ensures targets { IfOk result (HasTargets (lines_of term.now) [] row) }
    ensures ready { IfOk result (λ _. IsReady (lines_of term.now) board.now [] places.new) }
{
    let mut sent = List::new(alloc);
    let mut set = 0;
    for target in term.kept.as_slice() {
        if fits(term, board, &mut sent, places, row, *target)? {
            set = with(set, *target as usize);
        }
    }
    Ok(set)
}

/// The guide of the term.
pub fn guide_of(
    alloc: Global,
    term: &StatedTerm,
    board: &Board,
    places: &mut [StepColumn],
) -> Result<Guide, NoMemory>
    requires ready { IsReady (lines_of term.now) board.now [] places.old }
    requires few { length term.now.rows ≤ 64 }
    ensures guide { IfOk result (IsGuide (lines_of term.now)) }
    ensures ready { IfOk result (λ _. IsReady (lines_of term.now) board.now [] places.new) }
{
    let alike = all_alike(alloc, term.rows.as_slice())?;
    let mut sets = List::new(alloc);
    for i in 0..term.rows.len() {
        sets.push(alone(alloc, term, board, places, i as u8)?)?;
    }
    let telling = telling_of(alloc, alike.as_slice())?;
    Ok(Guide {
        alone: sets,
        alike,
        telling,
    })
}

/// The rows that have in the column the image that the place gives the symbol; all rows if it gives none.
fn with_image(
    term: &StatedTerm,
    guide: &Guide,
    sent: &[Sent],
    place: StepColumn,
    x: &Sym,
    column: usize,
) -> u64
    requires wide { AreWide term.now.rows }
    requires within { All (IsWithin (lines_of term.now)) sent.now }
    requires guide { IsGuide (lines_of term.now) guide.now }
    requires column { (i : ℕ) → i < length term.now.rows → column < length (get_or term.now.rows i []) }
    ensures { HasRowsWithImage (lines_of term.now) sent.now place x.now column result }
{
    match image(term, sent, place, x) {
        None => u64::MAX,
        Some(_) if place.column == column => {
            let target = sent[place.step].target as usize;
            guide.alike.as_slice()[target].as_slice()[column]
        }
        Some(y) => carriers(term.rows.as_slice(), column, y),
    }
}

/// Rows among which all kept rows are to which this row can go, beside the rows that have their targets.
pub fn candidates(
    term: &StatedTerm,
    board: &Board,
    guide: &Guide,
    sent: &[Sent],
    places: &[StepColumn],
    row: u8,
) -> u64
    requires ready { IsReady (lines_of term.now) board.now sent.now places.now }
    requires guide { IsGuide (lines_of term.now) guide.now }
    requires row { row < length term.now.rows }
    ensures { HasTargets (lines_of term.now) sent.now row result }
{
    let cells = row_at(term.rows.as_slice(), row as usize);
    let numbers = board.numbers.as_slice()[row as usize].as_slice();
    let mut set = guide.alone.as_slice()[row as usize];
    for at_column in guide.telling.as_slice() {
        let column = *at_column;
        if let Some(n) = numbers[column] {
            set = both(
                set,
                with_image(term, guide, sent, places[n], at(cells, column), column),
            );
        }
    }
    set
}
