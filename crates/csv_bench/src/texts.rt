//! The text that is read.
use std::alloc::{AllocError, Global};
use su_base::{Column, Kind, List, NoMemory, Str};

/// How many columns and records there are, and how many bytes a text has, if its number leaves room.
#[derive(Clone, Copy)]
pub(crate) struct Shape {
    columns: u32,
    width: u32,
    records: u32,
}

impl Shape {
    /// The shape of these numbers: 1 to 32 columns, texts of at most 4,096 bytes, at most 1,000,001
    /// records, one more than are read.
    pub(crate) fn new(columns: u32, width: u32, records: u32) -> Option<Shape> {
        if columns == 0 || columns > 32 || width > 4096 || records > 1_000_001 {
            return None;
        }
        Some(Shape {
            columns,
            width,
            records,
        })
    }
}

fn is_number(column: u32) -> bool {
    column % 2 == 0
}

/// The columns, named by their numbers.
pub(crate) fn columns(alloc: Global, shape: Shape) -> Result<List<Column>, NoMemory> {
    let mut columns = List::new(alloc);
    for column in 0..shape.columns {
        columns.push(Column {
            name: Str::new(alloc, format!(in alloc; "c{column}")?.as_str())?,
            kind: if is_number(column) {
                Kind::Int
            } else {
                Kind::Text
            },
        })?;
    }
    Ok(columns)
}

fn push_text(text: &mut String, number: &str, width: u32) -> Result<(), AllocError> {
    text.push_str("t")?;
    text.push_str(number)?;
    for _ in number.len()..(width as usize).saturating_sub(1) {
        text.push_str("x")?;
    }
    Ok(())
}

fn push_record(
    alloc: Global,
    text: &mut String,
    shape: Shape,
    record: u32,
) -> Result<(), AllocError> {
    for column in 0..shape.columns {
        if column > 0 {
            text.push_str(",")?;
        }
        let number = format!(in alloc; "{}", record.wrapping_mul(7919) % 1_000_003)?;
        if is_number(column) {
            text.push_str(number.as_str())?;
        } else {
            push_text(text, number.as_str(), shape.width)?;
        }
    }
    text.push_str("\n")
}

/// The header and the records.
pub(crate) fn text(alloc: Global, shape: Shape) -> Result<String, AllocError> {
    let mut text = String::new(alloc);
    for column in 0..shape.columns {
        text.push_str(if column == 0 { "c" } else { ",c" })?;
        text.push_str(format!(in alloc; "{column}")?.as_str())?;
    }
    text.push_str("\n")?;
    for record in 0..shape.records {
        push_record(alloc, &mut text, shape, record)?;
    }
    Ok(text)
}
