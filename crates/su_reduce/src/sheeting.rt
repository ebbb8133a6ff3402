//! The candidates of edges as rows of codes.
ghost use Rattle.std.specs.Prelude.{◌≡◌, ◌++◌, ℕ, List, [], ◌∷◌, IfOk, map, length};
ghost use Rattle.su_reduce.specs.Codes.{decode, Extends};
ghost use Rattle.su_reduce.specs.Sheets.{AreBelow};
ghost use Rattle.su_reduce.specs.inside.Coded.{AreSheets, IsPushed, IsSheetOf};

use crate::codes::Codes;
use crate::edges::Edge;
use crate::sheets::Sheet;
use std::alloc::{AllocError, Global};
use su_base::Value;

/// Puts in the codes of the row's values.
fn put_codes(
    alloc: Global,
    codes: &mut Codes,
    row: &[Value],
    cells: &mut Vec<u32>,
) -> Result<(), AllocError>
    requires empty { cells.old.items ≡ [] }
    ensures codes { IfOk result (λ _. Extends codes.old codes.new) }
    ensures coded { IfOk result (λ _. AreBelow cells.new.items (length codes.new)) }
    ensures values { IfOk result (λ _. map (decode codes.new) cells.new.items ≡ row.now) }
{
    for value in row {
        let code = codes.code(alloc, value)?;
        cells.push(code)?;
    }
    Ok(())
}

/// One more row of zeros.
fn push_blank(alloc: Global, sheet: &mut Sheet) -> Result<(), AllocError>
    ensures { IfOk result (λ _. (r : List ℕ) × (sheet.new ≡ record { width = sheet.old.width; rows = sheet.old.rows ++ r ∷ [] })) }
{
    let blank = vec![in alloc; 0; sheet.width()]?;
    sheet.push(&blank)?;
    Ok(())
}

/// One more row: the codes of this one. One that hasn't the width fits nothing, so zeros stand for it.
fn push_codes(
    alloc: Global,
    codes: &mut Codes,
    row: &[Value],
    cells: &mut Vec<u32>,
    sheet: &mut Sheet,
) -> Result<(), AllocError>
    ensures codes { IfOk result (λ _. Extends codes.old codes.new) }
    ensures pushed { IfOk result (λ _. IsPushed codes.new row.now sheet.old sheet.new) }
{
    if row.len() != sheet.width() {
        push_blank(alloc, sheet)?;
        return Ok(());
    }
    cells.clear();
    put_codes(alloc, codes, row, cells)?;
    sheet.push(cells)?;
    Ok(())
}

/// The candidates of the edge as rows of codes.
fn sheet_of(alloc: Global, codes: &mut Codes, edge: &Edge) -> Result<Sheet, AllocError>
    ensures codes { IfOk result (λ _. Extends codes.old codes.new) }
    ensures sheet { IfOk result (IsSheetOf codes.new edge.now) }
{
    let mut sheet = Sheet::new(alloc, edge.cells.len());
    let mut cells = Vec::new(alloc);
    for row in edge.candidates.as_slice() {
        push_codes(alloc, codes, row.as_slice(), &mut cells, &mut sheet)?;
    }
    Ok(sheet)
}

/// The candidates of each edge as rows of codes.
pub fn sheets_of(alloc: Global, edges: &[Edge]) -> Result<Vec<Sheet>, AllocError>
    ensures { IfOk result (λ sheets. AreSheets edges.now sheets.items) }
{
    let mut codes = Codes::new(alloc);
    let mut sheets = Vec::new(alloc);
    for edge in edges {
        let sheet = sheet_of(alloc, &mut codes, edge)?;
        sheets.push(sheet)?;
    }
    codes.keeps_its_rules();
    Ok(sheets)
}
