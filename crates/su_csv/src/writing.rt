//! Rows are written under a header.
ghost use Rattle.std.specs.Prelude.{◌≡◌, [], ◌∷◌, ◌++◌, List, Ok, map, All, OnOk, IfOk};
ghost use Rattle.csv.specs.Records.{fields_of, partial_of};
ghost use Rattle.csv.specs.Writing.{default_writer, row_text};
ghost use Rattle.su_csv.specs.Written.{field_of, text_of};
ghost use Rattle.su_csv.specs.ReadBack.{ReadsBack};
ghost use Rattle.su_csv.specs.inside.Writers.{IsStored};
ghost use Rattle.su_csv.specs.inside.Writers.{IsIdle, text_so_far};

use csv::{ByteRecord, Writer, WriterBuilder};
use std::alloc::Global;
use std::fmt::Write;
use su_base::{List, NoMemory, Row, Str, Value};

/// Adds the value's field. `digits` is room for a number's text.
fn push_value(fields: &mut ByteRecord, digits: &mut String, value: &Value) -> Result<(), NoMemory>
    requires { partial_of fields.old ≡ [] }
    ensures fields { OnOk result (fields_of fields.new ≡ fields_of fields.old ++ field_of value.now ∷ []) }
    ensures partial { OnOk result (partial_of fields.new ≡ []) }
    ensures stored { OnOk result (IsStored value.now) }
{
    match value {
        Value::Int(number) => {
            let number = *number;
            digits.clear();
            write!(digits, "{number}")?;
            fields.push_field(digits.as_bytes())?;
        }
        Value::Text(text) => fields.push_field(text.as_str().as_bytes())?,
    }
    Ok(())
}

/// Makes the record of the row.
fn set_row(fields: &mut ByteRecord, digits: &mut String, row: &Row) -> Result<(), NoMemory>
    ensures fields { OnOk result (fields_of fields.new ≡ map field_of row.now) }
    ensures stored { OnOk result (All IsStored row.now) }
{
    fields.clear();
    for value in row.as_slice() {
        push_value(fields, digits, value)?;
    }
    Ok(())
}

fn set_header(fields: &mut ByteRecord, header: &[Str]) -> Result<(), NoMemory>
    ensures { OnOk result (fields_of fields.new ≡ header.now) }
{
    fields.clear();
    for name in header {
        fields.push_field(name.as_str().as_bytes())?;
    }
    Ok(())
}

/// Writes the record behind the others.
fn put(writer: &mut Writer<Vec<u8>>, fields: &ByteRecord) -> Result<(), NoMemory>
    requires { IsIdle writer.old }
    ensures idle { OnOk result (IsIdle writer.new) }
    ensures text { OnOk result (text_so_far writer.new ≡ text_so_far writer.old ++ row_text default_writer (fields_of fields.now)) }
{
    let Ok(()) = writer.write_byte_record(fields) else {
        return Err(NoMemory);
    };
    Ok(())
}

/// Writes the header and then the rows behind what the writer holds.
fn put_all(
    alloc: Global,
    writer: &mut Writer<Vec<u8>>,
    header: &[Str],
    rows: &[Row],
) -> Result<(), NoMemory>
    requires { IsIdle writer.old }
    ensures text { OnOk result (text_so_far writer.new ≡ text_so_far writer.old ++ text_of header.now rows.now) }
    ensures stored { OnOk result (All (All IsStored) rows.now) }
{
    let mut fields = ByteRecord::new(alloc);
    let mut digits = String::new(alloc);
    set_header(&mut fields, header)?;
    put(writer, &fields)?;
    for row in rows {
        set_row(&mut fields, &mut digits, row)?;
        put(writer, &fields)?;
    }
    Ok(())
}

/// The front, and behind it the text that `write` gives. The text grows in the front's own buffer,
/// and one record's fields are held beside it.
pub fn write_behind(
    alloc: Global,
    front: List<u8>,
    header: &[Str],
    rows: &[Row],
) -> Result<List<u8>, NoMemory>
    ensures text { IfOk result (λ text. text ≡ front ++ text_of header.now rows.now) }
    ensures reads_back { OnOk result (ReadsBack header.now rows.now (text_of header.now rows.now)) }
{
    let mut writer = WriterBuilder::new()
        .flexible(true)
        .from_writer(front.into_vec());
    put_all(alloc, &mut writer, header, rows)?;
    match writer.into_inner() {
        Ok(text) => Ok(List::from_vec(text)),
        Err(_) => Err(NoMemory),
    }
}

/// The CSV text of the rows under the header, as the `csv` crate writes it at its default
/// settings: a field with a comma, a quote or a line break stands in quotes, and its quotes are
/// doubled. Numbers are written in decimal. The text grows in one buffer, and one record's fields
/// are held beside it.
pub fn write(alloc: Global, header: &[Str], rows: &[Row]) -> Result<List<u8>, NoMemory>
    ensures text { IfOk result (λ text. text ≡ text_of header.now rows.now) }
    ensures reads_back { IfOk result (ReadsBack header.now rows.now) }
{
    write_behind(alloc, List::new(alloc), header, rows)
}
