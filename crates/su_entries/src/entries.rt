//! Rows as entries.
ghost use Rattle.std.specs.Prelude.{◌≡◌, IfOk, OnOk, MatchOption};
ghost use Rattle.su_entries.specs.Entries.{entry_of, HoldsRow, value_of, IsRowValue};
ghost use Rattle.sqlite_value.specs.Value.{owned};

use sqlite_value::row::Row as Entry;
use sqlite_value::value::ValueRef;
use std::alloc::Global;
use std::str;
use su_base::{List, NoMemory, Row, Str, Value};

/// Makes the entry that of the row.
pub fn fill_entry(entry: &mut Entry, row: &Row) -> Result<(), NoMemory>
    ensures { OnOk result (entry.new ≡ entry_of row.now) }
{
    entry.clear();
    for value in row.as_slice() {
        match value {
            Value::Int(number) => entry.push(ValueRef::Int(*number))?,
            Value::Text(text) => entry.push(ValueRef::Text(text.as_str().as_bytes()))?,
        }
    }
    Ok(())
}

/// The value; none where it is neither a number nor a text of UTF-8.
fn read_value(alloc: Global, value: ValueRef<'_>) -> Result<Option<Value>, NoMemory>
    ensures { IfOk result (λ read. MatchOption read (¬ IsRowValue (owned value.entry)) (λ v. (value_of v ≡ owned value.entry) × IsRowValue (owned value.entry))) }
{
    match value {
        ValueRef::Int(number) => Ok(Some(Value::Int(number))),
        ValueRef::Text(bytes) => match str::from_utf8(bytes) {
            Ok(text) => Ok(Some(Value::Text(Str::new(alloc, text)?))),
            Err(_) => Ok(None),
        },
        _ => Ok(None),
    }
}

/// The row of the entry; none where a value is neither a number nor a text of UTF-8.
pub fn row_of(alloc: Global, entry: &Entry) -> Result<Option<Row>, NoMemory>
    ensures { IfOk result (λ read. MatchOption read (¬ HoldsRow entry.now) (λ row. (entry_of row ≡ entry.now) × HoldsRow entry.now)) }
{
    let mut row = List::from_vec(Vec::with_capacity(alloc, entry.len())?);
    for at in 0..entry.len() {
        match read_value(alloc, entry.get(at))? {
            Some(value) => row.push(value)?,
            None => return Ok(None),
        }
    }
    Ok(Some(row))
}
