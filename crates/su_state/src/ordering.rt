//! Rows in ascending order. A sort compares a number that never falls as the rows rise, the lead,
//! and rows only where it is the same.
ghost use Rattle.std.specs.Prelude.{◌≡◌, ◌<◌, ◌^◌, slice_index, All, map, IfOk};
ghost use Rattle.su_base.specs.Lists.{AllDiffer};
ghost use Rattle.su_state.specs.Changes.{AreInOrder};
ghost use Rattle.su_state.specs.inside.Leads.{sort_lead_of_number, sort_lead_of_bytes, IsSortLead, IsRowLead};

use std::alloc::Global;
use su_base::{List, NoMemory, Row, Value, copy_row};

const HALF: u64 = 4611686018427387904;

const TEXTS: u64 = 9223372036854775808;

fn of_number(number: i64) -> u64
    ensures { result ≡ sort_lead_of_number number }
{
    let size = number.unsigned_abs();
    if number < 0 {
        HALF - size.min(HALF)
    } else {
        HALF + size.min(HALF - 1)
    }
}

fn byte(bytes: &[u8], k: usize) -> u64
    ensures value { result ≡ slice_index bytes.now k }
    ensures small { result < 256 }
{
    match bytes.get(k) {
        Some(byte) => *byte as u64,
        None => 0,
    }
}

fn of_bytes(bytes: &[u8]) -> u64
    ensures value { result ≡ sort_lead_of_bytes 7 bytes.now }
    ensures bytes { All (λ b. b < 256) bytes.now }
    ensures small { result < 2 ^ 56 }
{
    let first = (byte(bytes, 0) * 256 + byte(bytes, 1)) * 256 + byte(bytes, 2);
    let more = (byte(bytes, 3) * 256 + byte(bytes, 4)) * 256 + byte(bytes, 5);
    (first * 16777216 + more) * 256 + byte(bytes, 6)
}

/// The value's lead.
fn lead(value: &Value) -> u64
    ensures { IsSortLead result value.now }
{
    match value {
        Value::Int(number) => of_number(*number),
        Value::Text(text) => TEXTS + of_bytes(text.as_str().as_bytes()),
    }
}

/// The lead of the row's first value.
fn row_lead(row: &Row) -> u64
    ensures { IsRowLead result row.now }
{
    match row.as_slice() {
        [value, ..] => lead(value),
        [] => 0,
    }
}

/// The rows, each with its lead.
fn keys_of<'a>(alloc: Global, rows: &'a [Row]) -> Result<Vec<(u64, &'a Row)>, NoMemory>
    ensures leads { IfOk result (λ keys. All (λ key. IsRowLead key.0 key.1.now) keys.items) }
    ensures rows { IfOk result (λ keys. map (λ key. key.1.now) keys.items ≡ rows.now) }
{
    let mut keys = Vec::with_capacity(alloc, rows.len())?;
    for row in rows {
        if keys.push((row_lead(row), row)).is_err() {
            return Err(NoMemory);
        }
    }
    Ok(keys)
}

/// Copies of the rows in the order of the keys.
fn copies_of(alloc: Global, keys: &[(u64, &Row)]) -> Result<List<Row>, NoMemory>
    ensures { IfOk result (λ rows. rows ≡ map (λ key. key.1.now) keys.now) }
{
    let mut rows = List::from_vec(Vec::with_capacity(alloc, keys.len())?);
    for key in keys {
        rows.push(copy_row(alloc, key.1)?)?;
    }
    Ok(rows)
}

/// Copies of the rows in ascending order: whole numbers before texts, value by value.
pub fn in_order(alloc: Global, rows: &[Row]) -> Result<List<Row>, NoMemory>
    ensures { IfOk result (λ sorted. AllDiffer rows.now → AreInOrder rows.now sorted) }
{
    let mut keys = keys_of(alloc, rows)?;
    keys.sort_unstable();
    copies_of(alloc, keys.as_slice())
}
