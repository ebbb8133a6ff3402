//! The columns of an object, and the values in them.
ghost use Rattle.std.specs.Prelude.{◌≡◌, ◌<◌, ◌++◌, ℕ, Some, length, IfOk, OnOk};
ghost use Rattle.su_window.specs.Padded.{rows_under};
ghost use Rattle.su_window.specs.inside.Readings as reading;

use std::alloc::Global;
use su_base::{List, NoMemory, Row};
use su_schema::Schema;
use su_state::Database;

/// For each attribute the column from which the object takes it, if it is its own.
pub fn columns_of(alloc: Global, schema: &Schema, object: u8) -> Result<List<Option<u8>>, NoMemory>
    requires { object < length schema.now.objects }
    ensures { IfOk result (λ columns. columns ≡ reading.columns_of schema.now object) }
{
    schema.keeps_its_rules();
    let mut columns = List::new(alloc);
    for a in 0..schema.attributes() as u8 {
        columns.push(schema.object_column(object, a))?;
    }
    Ok(columns)
}

/// The columns of each object.
pub fn all_columns(alloc: Global, schema: &Schema) -> Result<List<List<Option<u8>>>, NoMemory>
    ensures { IfOk result (λ all. all ≡ reading.all_columns schema.now) }
{
    schema.keeps_its_rules();
    let mut all = List::new(alloc);
    for object in 0..schema.objects() as u8 {
        all.push(columns_of(alloc, schema, object)?)?;
    }
    Ok(all)
}

/// Adds a copy of the row's value in the column, if it is there.
fn push_value(
    alloc: Global,
    column: Option<u8>,
    row: &Row,
    values: &mut Row,
) -> Result<(), NoMemory>
    requires { (k : ℕ) → column ≡ Some k → k < length row.now }
    ensures { OnOk result (values.new ≡ values.old ++ reading.value_in row.now column) }
{
    if let Some(c) = column {
        values.push(row.get(c as usize).copy(alloc)?)?;
    }
    Ok(())
}

/// Copies of the row's values in those columns that are there.
pub fn values_in(alloc: Global, columns: &[Option<u8>], row: &Row) -> Result<Row, NoMemory>
    requires { reading.AreColumnsBelow (length row.now) columns.now }
    ensures { IfOk result (λ values. values ≡ reading.values_in columns.now row.now) }
{
    let mut values = List::new(alloc);
    for column in columns {
        push_value(alloc, *column, row, &mut values)?;
    }
    Ok(values)
}

/// The rows of the object's relation.
pub fn rows_under(db: &Database, object: u8) -> &[Row]
    requires { object < length db.now.schema.objects }
    ensures { result.now ≡ rows_under db.now object }
{
    db.keeps_its_rules();
    let relation = db.schema().object_relation(object);
    db.tables()[relation as usize].as_slice()
}
