//! Which candidates some valuation gives an edge.
ghost use Rattle.std.specs.Prelude.{◌≡◌, ◌↔◌, ◌<◌, IsTrue, IfOk, length};
ghost use Rattle.su_reduce.specs.Shapes.{Fits, IsShape};
ghost use Rattle.su_reduce.specs.inside.Marks.{AreMarks, TellFitting, FittingAreMarked};

use crate::edges::Edge;
use crate::shapes::{Columns, Shape, fits, shape_of};
use std::alloc::Global;
use su_base::{List, NoMemory, Row};
use su_tableau::Sym;

/// Whether some valuation gives the cells the row. One of another length it gives no row.
fn fits_whole(cells: &List<Sym>, shape: &Shape, row: &Row) -> bool
    requires { IsShape cells.now shape.now }
    ensures { IsTrue result ↔ Fits cells.now row.now }
{
    if row.len() != cells.len() {
        return false;
    }
    fits(cells, shape, &Columns::Whole, row)
}

/// Which candidates of an edge fit it.
fn fitting_rows(alloc: Global, edge: &Edge) -> Result<List<bool>, NoMemory>
    ensures length { IfOk result (λ marks. length marks ≡ length edge.now.candidates) }
    ensures exact { IfOk result (TellFitting edge.now) }
{
    let shape = shape_of(alloc, &edge.cells)?;
    let mut marks = List::from_vec(Vec::with_capacity(alloc, edge.candidates.len())?);
    for row in edge.candidates.as_slice() {
        marks.push(fits_whole(&edge.cells, &shape, row))?;
    }
    Ok(marks)
}

/// Which candidates of each edge fit it.
pub fn fitting_marks(alloc: Global, edges: &[Edge]) -> Result<Vec<List<bool>>, NoMemory>
    ensures marks { IfOk result (λ marks. AreMarks edges.now marks.items) }
    ensures all { IfOk result (λ marks. FittingAreMarked edges.now marks.items) }
{
    let mut marks = List::new(alloc);
    for edge in edges {
        marks.push(fitting_rows(alloc, edge)?)?;
    }
    Ok(marks.into_vec())
}
