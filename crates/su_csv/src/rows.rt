//! The row of a record, or its fault.
ghost use Rattle.std.specs.Prelude.{◌≡◌, ◌<◌, ◌≤◌, ◌&&◌, Some, is_none, length, slice_get, MatchOption, true};
ghost use Rattle.csv.specs.Records.{AllText, fields_of};
ghost use Rattle.su_csv.specs.Record.{place_without, record_limit, row_or_fault};
ghost use Rattle.su_csv.specs.inside.Faults.{IsFaultAt};
ghost use Rattle.su_csv.specs.inside.OneAnswer.{Answers};
ghost use Rattle.su_base.specs.Value.{same_kind};
ghost use Rattle.su_csv.specs.Field.{field_value};

use crate::faults::CsvFault;
use crate::fields::{push_value, written_number};
use csv::ByteRecord;
use std::alloc::Global;
use su_base::{Column, Kind, List, Row};

pub(crate) fn field_at(fields: &ByteRecord, place: usize) -> &[u8]
    requires { place < length (fields_of fields.now) }
    ensures { slice_get (fields_of fields.now) place ≡ Some result.now }
{
    match fields.get(place) {
        Some(field) => field,
        None => unreachable!(),
    }
}

/// Whether all fields are ASCII, by which each is a text.
fn is_ascii(fields: &ByteRecord) -> bool
    ensures { result ≡ true → AllText (fields_of fields.now) }
{
    fields.as_slice().is_ascii()
}

/// The first column of numbers, from the left, whose field writes none.
fn first_without_number(columns: &[Column], fields: &ByteRecord) -> Option<u8>
    requires width { length (fields_of fields.now) ≡ length columns.now }
    requires few { length columns.now ≤ 32 }
    ensures { result ≡ place_without Kind.Int 0 columns.now (fields_of fields.now) }
{
    for (place, column) in columns.iter().enumerate() {
        if lacks_number(column, field_at(fields, place)) {
            return Some(place as u8);
        }
    }
    None
}

fn lacks_number(column: &Column, field: &[u8]) -> bool
    ensures { result ≡ (same_kind Kind.Int column.now.kind && is_none (field_value Kind.Int field.now)) }
{
    matches!(column.kind, Kind::Int) && written_number(field).is_none()
}

/// The fault of a record whose field at this place is the first without a value: numbers come
/// before texts.
fn fault_at(columns: &[Column], fields: &ByteRecord, number: u64, place: usize) -> CsvFault
    requires width { length (fields_of fields.now) ≡ length columns.now }
    requires few { length columns.now ≤ 32 }
    requires within { place < length columns.now }
    ensures { IsFaultAt columns.now (fields_of fields.now) number place result }
{
    match first_without_number(columns, fields) {
        Some(column) => CsvFault::NotInt { number, column },
        None => CsvFault::NotText {
            number,
            column: place as u8,
        },
    }
}

/// The row of the record of this number.
pub(crate) fn row_of_record(
    alloc: Global,
    columns: &[Column],
    fields: &ByteRecord,
    number: u64,
) -> Result<Row, CsvFault>
    requires few { length columns.now ≤ 32 }
    requires number { number ≤ record_limit }
    ensures { Answers result (row_or_fault columns.now number (fields_of fields.now)) }
{
    if fields.len() != columns.len() {
        return Err(CsvFault::Width { number });
    }
    let ascii = is_ascii(fields);
    let mut row = List::from_vec(Vec::with_capacity(alloc, columns.len())?);
    for (place, column) in columns.iter().enumerate() {
        let field = field_at(fields, place);
        if !push_value(&mut row, alloc, column.kind, field, ascii)? {
            return Err(fault_at(columns, fields, number, place));
        }
    }
    Ok(row)
}
