//! Components: rows that hang together.
ghost use Rattle.std.specs.Prelude.{◌≡◌, ◌<◌, ◌≤◌, ℕ, [], ◌∷◌, ◌++◌, List, length, IfOk, MatchOption, IsTrue, ◌↔◌, Contains, cond, nat_eq};
ghost use Rattle.std.specs.List.{range_with_len};
ghost use Rattle.su_exec.specs.Tasks.{StandsIn};
ghost use Rattle.su_tableau.specs.declared.symbols.Sym.TheVariants.{Var};
ghost use Rattle.su_exec.specs.Components.{AreComponents, AreConnected, IsLabelling};
ghost use Rattle.su_exec.specs.inside.Labels.{AreLabels, IsFirstRow, IsFirstOf, JoinsCompared, KeepsLabels, label_of, relabelled, rows_of};

use crate::tasks::{Compared, Task};
use std::alloc::{AllocError, Global};
use su_base::{List, NoMemory};
use su_reduce::variable_of;
use su_tableau::Sym;

/// The smaller label in place of the greater.
fn joined_label(label: usize, low: usize, high: usize) -> usize
    ensures { result ≡ cond (nat_eq label high) low label }
{
    if label == high { low } else { label }
}

/// Gives the label of the one to all that have the label of the other, the smaller to the greater.
fn join_labels(labels: &mut [usize], i: usize, j: usize)
    requires first { i < length labels.old }
    requires second { j < length labels.old }
    ensures { labels.new ≡ relabelled labels.old i j }
{
    let low = labels[i].min(labels[j]);
    let high = labels[i].max(labels[j]);
    for label in labels.iter_mut() {
        *label = joined_label(*label, low, high);
    }
}

/// Whether the variable is one of the cells.
fn has_variable(cells: &[Sym], k: u32) -> bool
    ensures { IsTrue result ↔ Contains cells.now (Var k) }
{
    for cell in cells {
        if let Sym::Var(l) = cell {
            if *l == k {
                return true;
            }
        }
    }
    false
}

/// The first row with the variable.
pub fn first_with(task: &Task, k: u32) -> Option<usize>
    ensures { MatchOption result ((i : ℕ) → ¬ StandsIn task.now k i) (IsFirstRow task.now k) }
{
    for i in 0..task.rows.len() {
        if has_variable(task.rows.get(i).cells.as_slice(), k) {
            return Some(i);
        }
    }
    None
}

/// The first row with the symbol, if it is a variable.
fn first_of(task: &Task, symbol: &Sym) -> Option<usize>
    ensures { MatchOption result ((k i : ℕ) → symbol.now ≡ Var k → ¬ StandsIn task.now k i) (IsFirstOf task.now symbol.now) }
{
    match variable_of(symbol) {
        Some(k) => first_with(task, k),
        None => None,
    }
}

/// Gives the row and the first row with the symbol one label, where the symbol is a variable.
fn join_first(task: &Task, symbol: &Sym, i: usize, labels: &mut [usize])
    requires labels { AreLabels task.now labels.old }
    requires row { i < length labels.old }
    requires linked { (k first : ℕ) → symbol.now ≡ Var k → IsFirstRow task.now k first → AreConnected task.now first i }
    ensures labels { AreLabels task.now labels.new }
    ensures kept { KeepsLabels labels.old labels.new }
    ensures joined { (k first : ℕ) → symbol.now ≡ Var k → IsFirstRow task.now k first → label_of labels.new i ≡ label_of labels.new first }
{
    let Some(first) = first_of(task, symbol) else {
        return;
    };
    join_labels(labels, first, i);
}

/// Gives the row the labels of the first rows with its variables.
fn join_row(task: &Task, i: usize, labels: &mut [usize])
    requires labels { AreLabels task.now labels.old }
    requires row { i < length labels.old }
    ensures labels { AreLabels task.now labels.new }
    ensures kept { KeepsLabels labels.old labels.new }
    ensures joined { (k first : ℕ) → StandsIn task.now k i → IsFirstRow task.now k first → label_of labels.new i ≡ label_of labels.new first }
{
    let row = task.rows.get(i);
    for cell in row.cells.as_slice() {
        join_first(task, cell, i, labels);
    }
}

/// Gives the first rows with the two variables one label, where the comparison is of variables.
fn join_compared(task: &Task, compared: &Compared, labels: &mut [usize])
    requires labels { AreLabels task.now labels.old }
    requires compared { Contains task.now.comparisons compared.now }
    ensures labels { AreLabels task.now labels.new }
    ensures kept { KeepsLabels labels.old labels.new }
    ensures joined { JoinsCompared task.now compared.now labels.new }
{
    let Some(i) = first_of(task, &compared.left) else {
        return;
    };
    join_first(task, &compared.right, i, labels);
}

/// Each row has its own label.
pub fn own_labels(alloc: Global, count: usize) -> Result<Vec<usize>, AllocError>
    ensures { IfOk result (λ labels. labels.items ≡ range_with_len 0 count) }
{
    let mut labels = Vec::new(alloc);
    for i in 0..count {
        labels.push(i)?;
    }
    Ok(labels)
}

/// For each row the first row that it is connected to.
fn labels_of(alloc: Global, task: &Task) -> Result<Vec<usize>, AllocError>
    ensures labels { IfOk result (λ labels. AreLabels task.now labels.items) }
    ensures joined { IfOk result (λ labels. IsLabelling task.now (label_of labels.items)) }
{
    let mut labels = own_labels(alloc, task.rows.len())?;
    for i in 0..task.rows.len() {
        join_row(task, i, &mut labels);
    }
    for compared in task.comparisons.as_slice() {
        join_compared(task, compared, &mut labels);
    }
    Ok(labels)
}

/// The rows with the label.
fn part_of(alloc: Global, labels: &[usize], label: usize) -> Result<List<u8>, NoMemory>
    requires { length labels.now ≤ 64 }
    ensures { IfOk result (λ part. part ≡ rows_of labels.now label) }
{
    let mut part = List::new(alloc);
    for i in 0..labels.len() {
        part.push_if(labels[i] == label, i as u8)?;
    }
    Ok(part)
}

/// Adds the part of the rows with the row's label, where that is its own.
fn add_part(
    alloc: Global,
    labels: &[usize],
    i: usize,
    parts: &mut List<List<u8>>,
) -> Result<(), NoMemory>
    requires few { length labels.now ≤ 64 }
    requires row { i < length labels.now }
    ensures { IfOk result (λ _. parts.new ≡ parts.old ++ cond (nat_eq (label_of labels.now i) i) (rows_of labels.now i ∷ []) []) }
{
    if labels[i] != i {
        return Ok(());
    }
    let part = part_of(alloc, labels, i)?;
    parts.push(part)?;
    Ok(())
}

/// The task's components by their first rows, the rows of each ascending. Two rows are in one where
/// they share a variable or a comparison joins variables of both, directly or through others.
pub fn components(alloc: Global, task: &Task) -> Result<List<List<u8>>, NoMemory>
    requires { length task.now.rows ≤ 64 }
    ensures { IfOk result (AreComponents task.now) }
{
    let labels = labels_of(alloc, task)?;
    let mut parts = List::new(alloc);
    for i in 0..labels.len() {
        add_part(alloc, &labels, i, &mut parts)?;
    }
    Ok(parts)
}
