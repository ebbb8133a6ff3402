//! The candidates that take part in a valuation of all edges.
ghost use Rattle.std.specs.Prelude.{◌≡◌, ◌<◌, ◌≤◌, ℕ, IfOk, OnOk, Contains, length, get_or, []};
ghost use Rattle.su_reduce.specs.Ears.{AreEars, IsEarOrder, cells_of, numbers};
ghost use Rattle.su_reduce.specs.Left.{candidates_at, AreLeft, marked};
ghost use Rattle.su_reduce.specs.inside.Coded.{AreSheets};
ghost use Rattle.su_reduce.specs.inside.Marks.{AreMarks, marks_at};
ghost use Rattle.su_reduce.specs.inside.Reduced.{AreReduced, next_of};

use crate::edges::{Ear, Edge};
use crate::fitting::fitting_marks;
use crate::semijoins::semijoin;
use crate::sheeting::sheets_of;
use crate::sheets::Sheet;
use std::alloc::Global;
use su_base::{List, NoMemory, Row, copy_row};

/// The parent of the first ear; where it has none, the next ear.
fn parent_or_next(order: &[Ear]) -> usize
    requires { 2 ≤ length order.now }
    ensures { result ≡ next_of order.now }
{
    match order[0].parent {
        Some(p) => p as usize,
        None => order[1].edge as usize,
    }
}

/// Takes away what has no partner: along the order the parents' candidates, and on the way back the ears'.
fn reduce_along(
    alloc: Global,
    edges: &[Edge],
    sheets: &[Sheet],
    order: &[Ear],
    marks: &mut [List<bool>],
) -> Result<(), NoMemory>
    requires ears { AreEars (cells_of edges.now) order.now }
    requires within { (i : ℕ) → Contains (numbers order.now) i → i < length edges.now }
    requires sheets { AreSheets edges.now sheets.now }
    requires marks { AreMarks edges.now marks.old }
    ensures { OnOk result (AreReduced edges.now (numbers order.now) marks.old marks.new) }
{
    if order.len() < 2 {
        return Ok(());
    }
    let ear = order[0].edge as usize;
    let parent = parent_or_next(order);
    semijoin(alloc, edges, sheets, marks, parent, ear)?;
    reduce_along(alloc, edges, sheets, &order[1..], marks)?;
    semijoin(alloc, edges, sheets, marks, ear, parent)?;
    Ok(())
}

/// Copies of the marked rows, in their order.
fn copy_marked(alloc: Global, rows: &[Row], marks: &[bool]) -> Result<List<Row>, NoMemory>
    requires { length marks.now ≡ length rows.now }
    ensures { IfOk result (λ copies. copies ≡ marked marks.now rows.now) }
{
    let mut copies = List::new(alloc);
    for p in 0..rows.len() {
        if marks[p] {
            copies.push(copy_row(alloc, &rows[p])?)?;
        }
    }
    Ok(copies)
}

/// Copies of each edge's marked candidates.
fn copy_left(
    alloc: Global,
    edges: &[Edge],
    marks: &[List<bool>],
) -> Result<List<List<Row>>, NoMemory>
    requires { AreMarks edges.now marks.now }
    ensures length { IfOk result (λ left. length left ≡ length edges.now) }
    ensures each { IfOk result (λ left. (i : ℕ) → i < length edges.now → get_or left i [] ≡ marked (marks_at marks.now i) (candidates_at edges.now i)) }
{
    let mut left = List::new(alloc);
    for i in 0..edges.len() {
        left.push(copy_marked(alloc, edges[i].candidates.as_slice(), marks[i].as_slice())?)?;
    }
    Ok(left)
}

/// Per edge the candidates that take part, in their order; one that stands twice stays twice. The time
/// is that of looking up each value once, and of hashing, per ear, the candidates of the ear and of its
/// parent twice, as rows of codes; each value is copied once, and what is left. (The full reducer of Bernstein and Chiu.)
pub fn reduce(alloc: Global, edges: &[Edge], order: &[Ear]) -> Result<List<List<Row>>, NoMemory>
    requires order { IsEarOrder (cells_of edges.now) order.now }
    ensures length { IfOk result (λ left. length left ≡ length edges.now) }
    ensures left { IfOk result (λ left. (i : ℕ) → i < length edges.now → AreLeft edges.now i (get_or left i [])) }
{
    let sheets = sheets_of(alloc, edges)?;
    let mut marks = fitting_marks(alloc, edges)?;
    reduce_along(alloc, edges, &sheets, order, &mut marks)?;
    let left = copy_left(alloc, edges, &marks)?;
    Ok(left)
}
