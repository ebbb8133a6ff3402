//! The variables of cells, and which rows fit them.
ghost use Rattle.std.specs.Prelude.{◌≡◌, ◌↔◌, ◌<◌, ◌+◌, ℕ, pos, IsTrue, IfOk, MatchOption, length, get_or};
ghost use Rattle.su_base.specs.declared.values.Value.TheVariants.{Int};
ghost use Rattle.su_tableau.specs.declared.symbols.Sym.TheVariants.{Var};
ghost use Rattle.su_tableau.specs.Valuations.{nth};
ghost use Rattle.su_reduce.specs.Shapes.{Fits, HasColumns, IsShape, IsShapeOf, variable_place, values_in};
ghost use Rattle.su_reduce.specs.inside.Keys.{FitsAt};

use std::alloc::{AllocError, Global};
use su_base::{List, Row, Value};
use su_tableau::{Sym, is_var};

/// Which column of a row each cell stands for: the one at its own place, or the one listed there.
#[derive(Clone, Copy)]
pub enum Columns<'a> {
    Whole,
    Listed(&'a List<u8>),
}

/// The variables of some cells, each once, and the first place of each; for each cell the first place of
/// its variable.
#[derive(Drop)]
pub struct Shape {
    pub vars: Vec<u32>,
    pub firsts: Vec<usize>,
    pub places: Vec<usize>,
}

/// The variable, if the cell is one.
pub fn variable_of(cell: &Sym) -> Option<u32>
    ensures { MatchOption result ((k : ℕ) → ¬ (cell.now ≡ Var k)) (λ k. cell.now ≡ Var k) }
{
    match cell {
        Sym::Var(k) => Some(*k),
        Sym::Const(_) => None,
    }
}

/// The place of the variable; the number of cells where none holds it.
pub fn place(cells: &[Sym], k: u32) -> usize
    ensures { result ≡ variable_place cells.now k }
{
    for p in 0..cells.len() {
        if is_var(&cells[p], k) {
            return p;
        }
    }
    cells.len()
}

/// Adds the place of the variable of the cell at p, and where it is new the variable.
fn add_cell(cells: &List<Sym>, p: usize, shape: &mut Shape) -> Result<(), AllocError>
    requires within { p < length cells.now }
    requires so_far { IsShapeOf cells.now p shape.old.vars.items shape.old.firsts.items shape.old.places.items }
    ensures { IfOk result (λ _. IsShapeOf cells.now (p + 1) shape.new.vars.items shape.new.firsts.items shape.new.places.items) }
{
    let Some(k) = variable_of(cells.get(p)) else {
        shape.places.push(p)?;
        return Ok(());
    };
    let first = place(cells.as_slice(), k);
    shape.places.push(first)?;
    if first == p {
        shape.vars.push(k)?;
        shape.firsts.push(p)?;
    }
    Ok(())
}

/// The shape of the cells.
pub fn shape_of(alloc: Global, cells: &List<Sym>) -> Result<Shape, AllocError>
    ensures { IfOk result (IsShape cells.now) }
{
    let mut shape = Shape {
        vars: Vec::new(alloc),
        firsts: Vec::new(alloc),
        places: Vec::new(alloc),
    };
    for p in 0..cells.len() {
        add_cell(cells, p, &mut shape)?;
    }
    Ok(shape)
}

/// The value of the row that the cell at p stands for.
pub fn value_at<'a>(columns: &Columns, row: &'a Row, p: usize) -> &'a Value
    requires columns { HasColumns columns.now row.now }
    requires place { p < length (values_in columns.now row.now) }
    ensures { result.now ≡ get_or (values_in columns.now row.now) p (Int (pos 0)) }
{
    match columns {
        Columns::Whole => row.get(p),
        Columns::Listed(listed) => row.get(*listed.get(p) as usize),
    }
}

/// Whether the two are one value.
#[tactic(auto, using(crate::proofs::Same::value_same))]
fn same_value(a: &Value, b: &Value) -> bool
    ensures { IsTrue result ↔ (a.now ≡ b.now) }
{
    a == b
}

/// Whether the row has one value at two places.
fn same_at(columns: &Columns, row: &Row, p: usize, q: usize) -> bool
    requires columns { HasColumns columns.now row.now }
    requires places { (p < length (values_in columns.now row.now)) × (q < length (values_in columns.now row.now)) }
    ensures { IsTrue result ↔ (nth (values_in columns.now row.now) p ≡ nth (values_in columns.now row.now) q) }
{
    if p == q {
        return true;
    }
    same_value(value_at(columns, row, p), value_at(columns, row, q))
}

/// Whether the row's value at place p is the constant there, or the one at the first place of the variable.
fn fits_at(cells: &List<Sym>, shape: &Shape, columns: &Columns, row: &Row, p: usize) -> bool
    requires shape { IsShape cells.now shape.now }
    requires columns { HasColumns columns.now row.now }
    requires length { length (values_in columns.now row.now) ≡ length cells.now }
    requires place { p < length cells.now }
    ensures { IsTrue result ↔ FitsAt cells.now (values_in columns.now row.now) p }
{
    match cells.get(p) {
        Sym::Const(constant) => same_value(value_at(columns, row, p), constant),
        Sym::Var(_) => same_at(columns, row, p, shape.places[p]),
    }
}

/// Whether some valuation gives the cells the row's values in these columns.
pub fn fits(cells: &List<Sym>, shape: &Shape, columns: &Columns, row: &Row) -> bool
    requires shape { IsShape cells.now shape.now }
    requires columns { HasColumns columns.now row.now }
    requires length { length (values_in columns.now row.now) ≡ length cells.now }
    ensures { IsTrue result ↔ Fits cells.now (values_in columns.now row.now) }
{
    for p in 0..cells.len() {
        if !fits_at(cells, shape, columns, row, p) {
            return false;
        }
    }
    true
}
