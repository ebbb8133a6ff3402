//! Which terms cover which.
ghost use Rattle.std.specs.Prelude.{◌≡◌, ◌<◌, ◌⊎◌, ◌↔◌, IsTrue, IfOk, Contains, false, true, length, get_or};
ghost use Rattle.su_min.specs.Cover.{Covers};
ghost use Rattle.su_min.specs.Reduction.{term_at};
ghost use Rattle.su_min.specs.inside.Matrix.{AreKnown, IsRowOf, IsMatrix};
ghost use Rattle.su_min.specs.inside.Rooms.{IsRoomOf};

use crate::minimal::Minimal;
use crate::searches::covers;
use rayon::prelude::*;
use std::alloc::Global;
use std::marker::Brand;
use std::slice;
use std::sync::ledger::{Blank, Ledger};
use std::thread::Threads;
use su_base::{List, NoMemory, Steps};
use su_map::Room;

/// Unions whose terms have at most so many rows together are compared by the caller's thread alone.
const FEW: usize = 64;

/// Whether the term has a mark; a term past the marks has none.
fn is_marked(marks: &[bool], i: usize) -> bool
    ensures { result ≡ get_or marks.now i false }
{
    i < marks.len() && marks[i]
}

/// Whether the first term is covered, and is marked as one that covers the other.
fn is_through(first: bool, marks: &[bool], i: usize) -> bool
    ensures { IsTrue result → IsTrue first × (get_or marks.now i false ≡ true) }
{
    if !first {
        return false;
    }
    is_marked(marks, i)
}

/// Whether it is known that term j covers term i: the two are one, or it covers the first term, which is
/// marked as one that covers the other.
fn is_known(first: bool, marks: &[bool], i: usize, j: usize) -> bool
    ensures { IsTrue result → (i ≡ j) ⊎ (IsTrue first × (get_or marks.now i false ≡ true)) }
{
    if i == j {
        return true;
    }
    is_through(first, marks, i)
}

/// Whether the one term covers the other, of which it may be known that it does.
fn tells<L: Ledger>(
    alloc: Global,
    known: bool,
    all: &[Minimal],
    one: &Minimal,
    other: &Minimal,
    room: &mut Option<Room>,
    steps: &mut Steps<L>,
) -> Result<bool, NoMemory>
    requires term { Contains all.now one.now }
    requires room { IsRoomOf all.now room.old }
    ensures tells { IfOk result (λ tells. (IsTrue known → Covers one.now other.now) → IsTrue tells ↔ Covers one.now other.now) }
    ensures room { IsRoomOf all.now room.new }
{
    if known {
        return Ok(true);
    }
    covers(alloc, all, one, other, room, steps)
}

/// For each term whether term j covers it; marked are terms that the first one covers. The room is
/// for all of `all`, of which term j is one.
fn row_counted<L: Ledger>(
    alloc: Global,
    all: &[Minimal],
    terms: &[Minimal],
    j: usize,
    marks: &[bool],
    room: &mut Option<Room>,
    steps: &mut Steps<L>,
) -> Result<List<bool>, NoMemory>
    requires row { j < length terms.now }
    requires term { Contains all.now (term_at terms.now j) }
    requires room { IsRoomOf all.now room.old }
    ensures row { AreKnown terms.now marks.now → IfOk result (λ row. IsRowOf (term_at terms.now j) terms.now row) }
    ensures room { IsRoomOf all.now room.new }
{
    let term = &terms[j];
    term.keeps_its_rules();
    let mut row = List::from_vec(Vec::with_capacity(alloc, terms.len())?);
    let itself = is_known(false, marks, 0, j);
    let first = tells(alloc, itself, all, term, &terms[0], room, steps)?;
    for i in 0..terms.len() {
        let known = is_known(first, marks, i, j);
        let covers = tells(alloc, known, all, term, &terms[i], room, steps)?;
        row.push(covers)?;
    }
    Ok(row)
}

/// The row of term j, by searches in a room of its own, which are counted in a ledger.
fn row_alone<L: Ledger>(
    alloc: Global,
    terms: &[Minimal],
    j: usize,
    marks: &[bool],
    blank: Blank,
) -> Result<List<bool>, NoMemory>
    requires row { j < length terms.now }
    requires name { blank.name ≡ L.name }
    requires parts { blank.parts ≡ L.parts }
    requires some { 0 < blank.parts }
    ensures { AreKnown terms.now marks.now → IfOk result (λ row. IsRowOf (term_at terms.now j) terms.now row) }
{
    let mut room = None;
    let mut steps = Steps::<L>::new(blank);
    let own = slice::from_ref(&terms[j]);
    row_counted(alloc, own, terms, j, marks, &mut room, &mut steps)
}

/// For each term whether term j covers it; marked are terms that the first one covers.
fn matrix_row(
    alloc: Global,
    terms: &[Minimal],
    j: usize,
    marks: &[bool],
) -> Result<List<bool>, NoMemory>
    requires { j < length terms.now }
    ensures { AreKnown terms.now marks.now → IfOk result (λ row. IsRowOf (term_at terms.now j) terms.now row) }
{
    row_alone::<Brand>(alloc, terms, j, marks, Blank::new(1))
}

/// The rows of the matrix, one after another, by searches in one room.
fn rows_in_turn<L: Ledger>(
    alloc: Global,
    terms: &[Minimal],
    room: &mut Option<Room>,
    steps: &mut Steps<L>,
) -> Result<Vec<List<bool>>, NoMemory>
    requires { IsRoomOf terms.now room.old }
    ensures matrix { IfOk result (λ matrix. IsMatrix terms.now matrix.items) }
    ensures room { IsRoomOf terms.now room.new }
{
    let mut rows = List::from_vec(Vec::with_capacity(alloc, terms.len())?);
    if terms.is_empty() {
        return Ok(rows.into_vec());
    }
    let first = row_counted(alloc, terms, terms, 0, &[], room, steps)?;
    for j in 0..terms.len() {
        let row = row_counted(alloc, terms, terms, j, first.as_slice(), room, steps)?;
        rows.push(row)?;
    }
    Ok(rows.into_vec())
}

/// The rows of the matrix, each in one thread at a time.
fn rows_at_once<R: Threads + Sync>(
    rt: &R,
    alloc: Global,
    terms: &[Minimal],
) -> Result<Vec<List<bool>>, NoMemory>
    requires { 0 < length terms.now }
    ensures { IfOk result (λ matrix. IsMatrix terms.now matrix.items) }
{
    let first = matrix_row(alloc, terms, 0, &[])?;
    let marks = first.as_slice();
    (0..terms.len())
        .into_par_iter()
        .with_min_len(1)
        .map(
            |j: usize| -> Result<List<bool>, NoMemory>
                requires { j < length terms.now }
                ensures { AreKnown terms.entry.now marks.entry.now → IfOk result (λ row. IsRowOf (term_at terms.entry.now j) terms.entry.now row) }
            { matrix_row(alloc, terms, j, marks) },
        )
        .collect::<Result<Vec<List<bool>>, NoMemory>>(rt, alloc)?
}

/// Whether the terms have few rows together.
fn are_few(terms: &[Minimal]) -> bool {
    let mut rows = 0usize;
    for term in terms {
        rows = rows.saturating_add(term.tableau().row_count());
    }
    rows <= FEW
}

/// The matrix of coverings. What covers the first term covers what that one covers, and is not compared
/// with it. A few terms are compared by the caller's thread, in the room, which is for all the terms.
pub fn coverings<R: Threads + Sync, L: Ledger>(
    rt: &R,
    alloc: Global,
    terms: &[Minimal],
    room: &mut Option<Room>,
    steps: &mut Steps<L>,
) -> Result<Vec<List<bool>>, NoMemory>
    requires { IsRoomOf terms.now room.old }
    ensures matrix { IfOk result (λ matrix. IsMatrix terms.now matrix.items) }
    ensures room { IsRoomOf terms.now room.new }
{
    if terms.is_empty() || are_few(terms) {
        return rows_in_turn(alloc, terms, room, steps);
    }
    rows_at_once(rt, alloc, terms)
}
