//! A file is read under a header of column names.
ghost use Rattle.std.specs.Prelude.{◌≡◌, ◌≤◌, ◌⊎◌, ◌&&◌, nat_le, slice_index, Ok, Err, IfOk, IfErr, length};
ghost use Rattle.csv.specs.Reading.{is_bom, strip_bom};
ghost use Rattle.csv.specs.Records.{fields_of};
ghost use Rattle.su_csv.specs.File.{is_header, reading, rows_from};
ghost use Rattle.su_csv.specs.inside.OneAnswer.{Answers};
ghost use Rattle.su_csv.specs.inside.Records.{Stands, records_left};

use crate::faults::CsvFault;
use crate::records::{advance, records_of};
use crate::rows::{field_at, row_of_record};
use csv::{ByteRecord, Reader};
use std::alloc::Global;
use su_base::{Column, List, Row};

const RECORD_LIMIT: u64 = 1_000_000;

/// The bytes without one byte order mark at their start.
fn without_mark(bytes: &[u8]) -> &[u8]
    ensures { result.now ≡ strip_bom bytes.now }
{
    if has_mark(bytes) { &bytes[3..] } else { bytes }
}

fn has_mark(bytes: &[u8]) -> bool
    ensures { result ≡ (nat_le 3 (length bytes.now) && is_bom (slice_index bytes.now 0) (slice_index bytes.now 1) (slice_index bytes.now 2)) }
{
    bytes.len() >= 3 && bytes[0] == 0xef && bytes[1] == 0xbb && bytes[2] == 0xbf
}

/// Whether the record is the column names in order.
fn is_header(columns: &[Column], fields: &ByteRecord) -> bool
    ensures { result ≡ is_header columns.now (fields_of fields.now) }
{
    if fields.len() != columns.len() {
        return false;
    }
    for (place, column) in columns.iter().enumerate() {
        if field_at(fields, place) != column.name.as_str().as_bytes() {
            return false;
        }
    }
    true
}

/// The rows of the records that are left, numbered from 1.
fn rows_under_header(
    alloc: Global,
    columns: &[Column],
    records: &mut Reader<&[u8]>,
    fields: &mut ByteRecord,
) -> Result<List<Row>, CsvFault>
    requires few { length columns.now ≤ 32 }
    requires stands { Stands records.old }
    ensures { Answers result (rows_from columns.now 1 (records_left records.old)) }
{
    let mut rows = List::new(alloc);
    for before in 0..RECORD_LIMIT {
        if !advance(records, fields)? {
            return Ok(rows);
        }
        rows.push(row_of_record(alloc, columns, fields, before + 1)?)?;
    }
    if advance(records, fields)? {
        return Err(CsvFault::TooMany);
    }
    Ok(rows)
}

/// The rows of a CSV file under a header of the column names, one row a record.
///
/// A byte order mark at the start is dropped, and the rest is read as the `csv` crate does at its
/// default settings, which drops a second one. Records are counted from 1 after the header and columns from 0. The first
/// record with a fault decides; within it the faults come in their order, and then from the left.
/// One pass over the bytes, of which no more than one record is held beside the rows.
pub fn read(alloc: Global, bytes: &[u8], columns: &[Column]) -> Result<List<Row>, CsvFault>
    requires { length columns.now ≤ 32 }
    ensures rows { IfOk result (λ rows. reading columns.now bytes.now ≡ Ok rows) }
    ensures fault { IfErr result (λ fault. (fault ≡ CsvFault.NoMemory) ⊎ (reading columns.now bytes.now ≡ Err fault)) }
{
    let mut records = records_of(alloc, without_mark(bytes));
    let mut fields = ByteRecord::new(alloc);
    if !advance(&mut records, &mut fields)? || !is_header(columns, &fields) {
        return Err(CsvFault::Header);
    }
    rows_under_header(alloc, columns, &mut records, &mut fields)
}
