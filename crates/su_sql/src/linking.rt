//! What the cells ask of their places: equal symbols stand for equal values.
ghost use Rattle.std.specs.Prelude.{◌≡◌, ◌++◌, map, OnOk, IfOk};
ghost use Rattle.su_sql.specs.TaskJoins.{operand_of, comparison_of, joins_at, joins_of, fixed_at, fixed_of};
ghost use Rattle.su_sql.specs.Cells.{is_variable, is_same, first_place};

use crate::cells::Cell;
use crate::tables::{CellPlace, Comparison, Fixed, Join, Operand};
use std::alloc::Global;
use su_base::{List, NoMemory};
use su_exec::Compared;
use su_tableau::Sym;

fn is_variable(number: u32, symbol: &Sym) -> bool
    ensures { result ≡ is_variable number symbol.now }
{
    match symbol {
        Sym::Var(k) => *k == number,
        Sym::Const(_) => false,
    }
}

fn is_same(place: CellPlace, other: CellPlace) -> bool
    ensures { result ≡ is_same place other }
{
    place.table == other.table && place.cell == other.cell
}

/// The first place of the variable, found by one walk over the cells, of which a query has few.
fn first_place(cells: &[Cell], number: u32) -> CellPlace
    ensures { result ≡ first_place cells.now number }
{
    for cell in cells {
        if is_variable(number, &cell.symbol) {
            return cell.place;
        }
    }
    CellPlace { table: 0, cell: 0 }
}

/// What stands for the symbol: the first place of a variable.
fn operand_of(alloc: Global, cells: &[Cell], symbol: &Sym) -> Result<Operand, NoMemory>
    ensures { IfOk result (λ operand. operand ≡ operand_of cells.now symbol.now) }
{
    match symbol {
        Sym::Var(k) => Ok(Operand::At(first_place(cells, *k))),
        Sym::Const(value) => Ok(Operand::Const(value.copy(alloc)?)),
    }
}

pub(crate) fn operands_of(
    alloc: Global,
    cells: &[Cell],
    symbols: &[Sym],
) -> Result<List<Operand>, NoMemory>
    ensures { IfOk result (λ operands. operands ≡ map (operand_of cells.now) symbols.now) }
{
    let mut operands = List::new(alloc);
    for symbol in symbols {
        operands.push(operand_of(alloc, cells, symbol)?)?;
    }
    Ok(operands)
}

fn comparison_of(alloc: Global, cells: &[Cell], compared: &Compared) -> Result<Comparison, NoMemory>
    ensures { IfOk result (λ comparison. comparison ≡ comparison_of cells.now compared.now) }
{
    Ok(Comparison {
        left: operand_of(alloc, cells, &compared.left)?,
        op: compared.op,
        right: operand_of(alloc, cells, &compared.right)?,
    })
}

pub(crate) fn comparisons_of(
    alloc: Global,
    cells: &[Cell],
    all: &[Compared],
) -> Result<List<Comparison>, NoMemory>
    ensures { IfOk result (λ comparisons. comparisons ≡ map (comparison_of cells.now) all.now) }
{
    let mut comparisons = List::new(alloc);
    for compared in all {
        comparisons.push(comparison_of(alloc, cells, compared)?)?;
    }
    Ok(comparisons)
}

/// Joins a further place of a variable to its first one.
fn push_join(joins: &mut List<Join>, cells: &[Cell], cell: &Cell) -> Result<(), NoMemory>
    ensures { OnOk result (joins.new ≡ joins.old ++ joins_at cells.now cell.now) }
{
    if let Sym::Var(k) = &cell.symbol {
        let left = first_place(cells, *k);
        if !is_same(left, cell.place) {
            let right = cell.place;
            joins.push(Join { left, right })?;
        }
    }
    Ok(())
}

pub(crate) fn joins_of(alloc: Global, cells: &[Cell]) -> Result<List<Join>, NoMemory>
    ensures { IfOk result (λ joins. joins ≡ joins_of cells.now) }
{
    let mut joins = List::new(alloc);
    for cell in cells {
        push_join(&mut joins, cells, cell)?;
    }
    Ok(joins)
}

/// Fixes the place of a constant.
fn push_fixed(alloc: Global, fixed: &mut List<Fixed>, cell: &Cell) -> Result<(), NoMemory>
    ensures { OnOk result (fixed.new ≡ fixed.old ++ fixed_at cell.now) }
{
    if let Sym::Const(value) = &cell.symbol {
        let place = cell.place;
        let value = value.copy(alloc)?;
        fixed.push(Fixed { place, value })?;
    }
    Ok(())
}

pub(crate) fn fixed_of(alloc: Global, cells: &[Cell]) -> Result<List<Fixed>, NoMemory>
    ensures { IfOk result (λ fixed. fixed ≡ fixed_of cells.now) }
{
    let mut fixed = List::new(alloc);
    for cell in cells {
        push_fixed(alloc, &mut fixed, cell)?;
    }
    Ok(fixed)
}
