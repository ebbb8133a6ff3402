//! The four ways through a text, each with what it came by.
use csv::{ByteRecord, Reader, ReaderBuilder};
use std::alloc::{AllocError, Global};
use su_base::{Column, List, Row};
use su_csv::CsvFault;

fn reader<'a>(alloc: Global, bytes: &'a [u8]) -> Reader<&'a [u8]> {
    ReaderBuilder::new()
        .has_headers(false)
        .flexible(true)
        .from_reader(alloc, bytes)
}

/// The records, one after another in one buffer.
pub(crate) fn pass(alloc: Global, bytes: &[u8]) -> usize {
    let mut records = reader(alloc, bytes);
    let mut record = ByteRecord::new(alloc);
    for count in 0..bytes.len() {
        if !matches!(records.read_byte_record(&mut record), Ok(true)) {
            return count;
        }
    }
    bytes.len()
}

/// The records, each in a buffer of its own and let go.
pub(crate) fn give(alloc: Global, bytes: &[u8]) -> usize {
    reader(alloc, bytes).into_byte_records().count()
}

/// The records, all of them kept.
pub(crate) fn keep(alloc: Global, bytes: &[u8]) -> Result<Vec<ByteRecord>, AllocError> {
    let mut kept = Vec::new(alloc);
    for record in reader(alloc, bytes).into_byte_records() {
        if let Ok(record) = record {
            kept.push(record)?;
        }
    }
    Ok(kept)
}

/// The rows, all of them kept, or why there are none. There are at most 32 columns.
pub(crate) fn read(alloc: Global, bytes: &[u8], columns: &[Column]) -> Result<List<Row>, CsvFault> {
    su_csv::read(alloc, bytes, &columns[..columns.len().min(32)])
}
