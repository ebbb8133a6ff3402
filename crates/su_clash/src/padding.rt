//! Members as rows, padded with variables of their own.
ghost use Rattle.std.specs.Prelude.{◌≡◌, ◌+◌, ◌<◌, ◌≤◌, ◌^◌, ℕ, map, length, get_or, All, Some, None, IfOk};
ghost use Rattle.std.specs.List.{range_with_len};
ghost use Rattle.su_window.specs.Padded as padding;
ghost use Rattle.su_window.specs.inside.Readings.{all_columns, AreColumnsBelow, symbol_in};
ghost use Rattle.su_clash.specs.Clash.{reading_of, rows_of_members};

use crate::columns::rows_under;
use crate::members::Member;
use std::alloc::Global;
use su_base::{List, NoMemory, Row};
use su_state::Database;
use su_tableau::Sym;

/// The row's value in the column, or the variable `k` where there is no column.
fn cell(alloc: Global, column: Option<u8>, row: &Row, k: u32) -> Result<Sym, NoMemory>
    requires { (c : ℕ) → column ≡ Some c → c < length row.now }
    ensures { IfOk result (λ x. x ≡ symbol_in row.now column k) }
{
    match column {
        Some(c) => Ok(Sym::Const(row.get(c as usize).copy(alloc)?)),
        None => Ok(Sym::Var(k)),
    }
}

/// The row's values at the object's attributes, and the variables from the number `first` on elsewhere.
fn padded_row(
    alloc: Global,
    columns: &[Option<u8>],
    row: &Row,
    first: usize,
) -> Result<List<Sym>, NoMemory>
    requires within { AreColumnsBelow (length row.now) columns.now }
    requires small { first + length columns.now ≤ 2 ^ 32 }
    ensures { IfOk result (λ cells. cells ≡ map (λ a. symbol_in row.now (get_or columns.now a None) (first + a)) (range_with_len 0 (length columns.now))) }
{
    let mut cells = List::from_vec(Vec::with_capacity(alloc, columns.len())?);
    for a in 0..columns.len() {
        cells.push(cell(alloc, columns[a], row, (first + a) as u32)?)?;
    }
    Ok(cells)
}

/// The padded rows of the members, in order.
pub fn padded_rows(
    alloc: Global,
    db: &Database,
    columns: &[List<Option<u8>>],
    members: &[Member],
) -> Result<List<List<Sym>>, NoMemory>
    requires columns { columns.now ≡ all_columns db.now.schema }
    requires each { All (λ m. padding.IsReading db.now (reading_of m)) members.now }
    requires few { length members.now ≤ 20000 }
    ensures { IfOk result (λ rows. rows ≡ rows_of_members db.now members.now) }
{
    db.keeps_its_rules();
    let width = db.schema().attributes();
    let mut rows = List::new(alloc);
    for i in 0..members.len() {
        let member = members[i];
        let columns = columns[member.object as usize].as_slice();
        let stored = rows_under(db, member.object);
        let row = &stored[member.position];
        rows.push(padded_row(alloc, columns, row, i * width)?)?;
    }
    Ok(rows)
}
