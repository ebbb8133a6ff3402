//! The part of a task that a set of its rows and comparisons asks for.
ghost use Rattle.std.specs.Prelude.{◌≡◌, ◌<◌, ◌^◌, ◌↔◌, Contains, IsTrue, IfOk};
ghost use Rattle.su_tableau.specs.declared.symbols.Sym.TheVariants.{Var};
ghost use Rattle.su_why.specs.Met.{size_of};
ghost use Rattle.su_why.specs.inside.Parts.{AreRowsOf, StandsInSome, IsIn, AreIn, AreComparisonsOf, AreThoseIn, IsPartOf};

use std::alloc::Global;
use su_base::{List, NoMemory};
use su_exec::{Compared, Task, TaskRow, copy_sources};
use su_tableau::{Sym, copy_symbols, is_var};

/// An equal row of its own.
fn copy_row(alloc: Global, row: &TaskRow) -> Result<TaskRow, NoMemory>
    ensures { IfOk result (λ copied. copied ≡ row.now) }
{
    Ok(TaskRow {
        cells: copy_symbols(alloc, row.cells.as_slice())?,
        sources: copy_sources(alloc, row.sources.as_slice())?,
    })
}

/// An equal comparison of its own.
fn copy_comparison(alloc: Global, compared: &Compared) -> Result<Compared, NoMemory>
    ensures { IfOk result (λ copied. copied ≡ compared.now) }
{
    Ok(Compared {
        left: compared.left.copy(alloc)?,
        op: compared.op,
        right: compared.right.copy(alloc)?,
    })
}

/// Whether the number is one of these.
fn is_among(set: &[usize], i: usize) -> bool
    ensures { IsTrue result ↔ Contains set.now i }
{
    set.contains(&i)
}

/// The task's rows in the set.
fn rows_of(alloc: Global, task: &Task, set: &[usize]) -> Result<List<TaskRow>, NoMemory>
    ensures { IfOk result (AreRowsOf task.now set.now) }
{
    let mut rows = List::new(alloc);
    for i in 0..task.rows.len() {
        if !is_among(set, i) {
            continue;
        }
        let row = copy_row(alloc, task.rows.get(i))?;
        rows.push(row)?;
    }
    Ok(rows)
}

/// Whether the variable is one of the cells.
fn has_variable(cells: &[Sym], k: u32) -> bool
    ensures { IsTrue result ↔ Contains cells.now (Var k) }
{
    for cell in cells {
        if is_var(cell, k) {
            return true;
        }
    }
    false
}

/// Whether the variable stands in one of the rows.
fn stands_in(rows: &[TaskRow], k: u32) -> bool
    ensures { IsTrue result ↔ StandsInSome rows.now k }
{
    for i in 0..rows.len() {
        if has_variable(rows[i].cells.as_slice(), k) {
            return true;
        }
    }
    false
}

/// Whether the symbol is a constant or stands in one of the rows.
fn is_in(rows: &[TaskRow], symbol: &Sym) -> bool
    ensures { IsTrue result ↔ IsIn rows.now symbol.now }
{
    match symbol {
        Sym::Const(_) => true,
        Sym::Var(k) => stands_in(rows, *k),
    }
}

/// Whether both sides of the comparison are in the rows.
fn are_in(rows: &[TaskRow], compared: &Compared) -> bool
    ensures { IsTrue result ↔ AreIn rows.now compared.now }
{
    is_in(rows, &compared.left) && is_in(rows, &compared.right)
}

/// Whether the number is in the set, and both sides of the comparison are in the rows.
fn counts(set: &[usize], i: usize, rows: &[TaskRow], compared: &Compared) -> bool
    ensures { IsTrue result ↔ Contains set.now i × AreIn rows.now compared.now }
{
    is_among(set, i) && are_in(rows, compared)
}

/// The task's comparisons in the set whose sides are in the rows.
fn comparisons_of(
    alloc: Global,
    task: &Task,
    set: &[usize],
    rows: &[TaskRow],
) -> Result<List<Compared>, NoMemory>
    requires { size_of task.now < 2 ^ 64 }
    ensures { IfOk result (AreComparisonsOf task.now set.now rows.now) }
{
    let behind = task.rows.len();
    let mut found = List::new(alloc);
    for i in 0..task.comparisons.len() {
        let own = task.comparisons.get(i);
        if !counts(set, behind + i, rows, own) {
            continue;
        }
        let compared = copy_comparison(alloc, own)?;
        found.push(compared)?;
    }
    Ok(found)
}

/// Those of these comparisons whose sides are in the rows.
fn those_in(
    alloc: Global,
    comparisons: &List<Compared>,
    rows: &[TaskRow],
) -> Result<List<Compared>, NoMemory>
    ensures { IfOk result (AreThoseIn comparisons.now rows.now) }
{
    let mut found = List::new(alloc);
    for i in 0..comparisons.len() {
        let own = comparisons.get(i);
        if !are_in(rows, own) {
            continue;
        }
        let compared = copy_comparison(alloc, own)?;
        found.push(compared)?;
    }
    Ok(found)
}

/// The part of the task that the set asks for, with the fixed comparisons that count. It gives nothing.
pub fn part_of(
    alloc: Global,
    task: &Task,
    fixed: &List<Compared>,
    set: &[usize],
) -> Result<Task, NoMemory>
    requires { size_of task.now < 2 ^ 64 }
    ensures { IfOk result (IsPartOf task.now fixed.now set.now) }
{
    let rows = rows_of(alloc, task, set)?;
    let mut comparisons = comparisons_of(alloc, task, set, rows.as_slice())?;
    let more = those_in(alloc, fixed, rows.as_slice())?;
    comparisons.append(more)?;
    Ok(Task {
        rows,
        outputs: List::new(alloc),
        comparisons,
    })
}
