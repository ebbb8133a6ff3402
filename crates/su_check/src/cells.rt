//! Cells of rows.
ghost use Rattle.std.specs.Prelude.{◌≡◌, ◌<◌, [], length, get_or};
ghost use Rattle.su_check.specs.inside.Cells.{cell_at};

use su_base::List;
use su_tableau::Sym;

/// The row with this number.
pub fn row_at(rows: &[List<Sym>], i: usize) -> &[Sym]
    requires { i < length rows.now }
    ensures { result.now ≡ get_or rows.now i [] }
{
    rows[i].as_slice()
}

/// The symbol at a column.
pub fn at(row: &[Sym], c: usize) -> &Sym
    requires { c < length row.now }
    ensures { result.now ≡ cell_at row.now c }
{
    &row[c]
}
