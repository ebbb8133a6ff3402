//! Rows from words, and rows as texts.
use std::alloc::{AllocError, Global};
use su_base::{List, NoMemory, Row, Str, Value};

/// A word that is a whole number is one, any other is a text.
fn word_value(alloc: Global, word: &str) -> Result<Value, NoMemory> {
    match word.parse::<i64>() {
        Ok(number) => Ok(Value::Int(number)),
        Err(_) => Ok(Value::Text(Str::new(alloc, word)?)),
    }
}

/// A row of the words, which have a space between them.
pub fn row_of(alloc: Global, words: &str) -> Result<Row, NoMemory> {
    let mut row = List::new(alloc);
    for word in words.split(' ') {
        row.push(word_value(alloc, word)?)?;
    }
    Ok(row)
}

/// The rows, which have a `;` between them.
pub fn rows_of(alloc: Global, lines: &str) -> Result<List<Row>, NoMemory> {
    let mut rows = List::new(alloc);
    for words in lines.split(';') {
        rows.push(row_of(alloc, words)?)?;
    }
    Ok(rows)
}

fn push_value(alloc: Global, out: &mut String, value: &Value) -> Result<(), AllocError> {
    match value {
        Value::Int(number) => out.push_str(number.to_string(alloc)?.as_str()),
        Value::Text(text) => out.push_str(text.as_str()),
    }
}

fn push_row(alloc: Global, out: &mut String, row: &Row) -> Result<(), AllocError> {
    for value in row.as_slice() {
        push_value(alloc, out, value)?;
        out.push_str(" ")?;
    }
    out.push_str("/")
}

/// The values of each row, each with a space behind it, and a stroke behind each row.
pub fn told(alloc: Global, rows: &[Row]) -> Result<String, AllocError> {
    let mut out = String::new(alloc);
    for row in rows {
        push_row(alloc, &mut out, row)?;
    }
    Ok(out)
}
