//! The symbols of what is joined, each with its place.
ghost use Rattle.std.specs.Prelude.{◌≡◌, ◌++◌, OnOk, IfOk};
ghost use Rattle.su_sql.specs.Cells.{cells_in, cells_of};

use crate::tables::CellPlace;
use std::alloc::Global;
use su_base::{List, NoMemory};
use su_exec::TaskRow;
use su_tableau::Sym;

/// A symbol at its place.
#[derive(Drop)]
pub struct Cell {
    pub place: CellPlace,
    pub symbol: Sym,
}

fn push_cells(
    alloc: Global,
    cells: &mut List<Cell>,
    table: usize,
    row: &TaskRow,
) -> Result<(), NoMemory>
    ensures { OnOk result (cells.new ≡ cells.old ++ cells_in table row.now) }
{
    for (cell, symbol) in row.cells.as_slice().iter().enumerate() {
        let place = CellPlace { table, cell };
        let symbol = symbol.copy(alloc)?;
        cells.push(Cell { place, symbol })?;
    }
    Ok(())
}

/// The cells of all rows, row by row.
pub(crate) fn cells_of(alloc: Global, rows: &[TaskRow]) -> Result<List<Cell>, NoMemory>
    ensures { IfOk result (λ cells. cells ≡ cells_of rows.now) }
{
    let mut cells = List::new(alloc);
    for (table, row) in rows.iter().enumerate() {
        push_cells(alloc, &mut cells, table, row)?;
    }
    Ok(cells)
}
