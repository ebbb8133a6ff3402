//! The tables as SQLite lists them.
ghost use Rattle.std.specs.Prelude.{◌≡◌, ◌==◌, ◌<◌, ◌≤◌, ◌++◌, true, [], ◌∷◌, if◌then◌else◌, length, codes, IfOk, OnOk, string_bytes};
ghost use Rattle.sqlite_value.specs.Keys.{plain};
ghost use Rattle.sqlite_trees.specs.declared.store.Shape.TheVariants.{Index as IndexOf};
ghost use Rattle.su_schema.specs.Entries.{relation_names};
ghost use Rattle.su_schema.specs.Known.{columns_at};
ghost use Rattle.su_keep.specs.Listed.{quoted, kind_words, columns_text, key_text, name_at, relation_row, statement, table_row, text_row};

use crate::names::{TEXT_TABLE, column_name, table_name};
use sqlite_trees::schema::Object;
use sqlite_trees::store::Shape;
use sqlite_value::keys::Order;
use sqlite_value::row::Row as Entry;
use sqlite_value::value::ValueRef;
use std::alloc::{AllocError, Global};
use su_base::{Column, Kind};
use su_schema::Schema;

/// What makes the table of the schema's text.
const TEXT_STATEMENT: &str =
    "CREATE TABLE \"sysu.schema\" (\"text\" TEXT NOT NULL, PRIMARY KEY (\"text\")) STRICT, WITHOUT ROWID";

/// A table and the statement that makes it.
#[derive(Drop)]
pub(crate) struct Listed {
    pub name: String,
    pub statement: String,
}

impl Listed {
    ghost use Rattle.sqlite_trees.specs.Objects.{description};
    ghost use Rattle.sqlite_value.specs.declared.value.Value.TheVariants as entry_value;

    /// As the store lists it: a set of entries in SQLite's own order.
    pub fn object(&self) -> Object<'_>
        ensures shape { result.shape ≡ IndexOf plain }
        ensures name { result.name.now ≡ string_bytes self.now.name }
        ensures described { description result ≡ entry_value.Text (codes "table") ∷ entry_value.Text (string_bytes self.now.name) ∷ entry_value.Text (string_bytes self.now.name) ∷ entry_value.Text (string_bytes self.now.statement) ∷ [] }
    {
        Object {
            shape: Shape::Index(Order::PLAIN),
            kind: "table",
            name: self.name.as_str(),
            table: self.name.as_str(),
            reals: 0,
            sql: Some(self.statement.as_str()),
        }
    }
}

/// The row of a table in the list, without its root page.
fn listed_row(alloc: Global, number: u32, name: &str, statement: &str) -> Result<Entry, AllocError>
    ensures { IfOk result (λ row. row ≡ table_row number name.now statement.now) }
{
    let mut row = Entry::new(alloc);
    row.push(ValueRef::Int(i64::from(number)))?;
    row.push(ValueRef::Text("table".as_bytes()))?;
    row.push(ValueRef::Text(name.as_bytes()))?;
    row.push(ValueRef::Text(name.as_bytes()))?;
    row.push(ValueRef::Text(statement.as_bytes()))?;
    Ok(row)
}

/// The table of the schema's text.
pub(crate) fn text_object() -> Object<'static>
    ensures { result.shape ≡ IndexOf plain }
{
    Object {
        shape: Shape::Index(Order::PLAIN),
        kind: "table",
        name: TEXT_TABLE,
        table: TEXT_TABLE,
        reals: 0,
        sql: Some(TEXT_STATEMENT),
    }
}

/// Whether the row is that of the table of the schema's text.
pub(crate) fn is_text_row(alloc: Global, row: &Entry) -> Result<bool, AllocError>
    ensures { IfOk result (λ same. same ≡ true → row.now ≡ text_row) }
{
    let wanted = listed_row(alloc, 1, TEXT_TABLE, TEXT_STATEMENT)?;
    Ok(row.is_same(&wanted))
}

fn push_quoted(out: &mut String, name: &str) -> Result<(), AllocError>
    ensures { OnOk result (string_bytes out.new ≡ string_bytes out.old ++ quoted name.now) }
{
    out.push_str("\"")?;
    out.push_str(name)?;
    out.push_str("\"")
}

/// What says that a column has values of this kind alone, and that another column follows.
fn words_of(kind: Kind) -> &'static str
    ensures { result.now ≡ kind_words kind }
{
    match kind {
        Kind::Int => " INTEGER NOT NULL, ",
        Kind::Text => " TEXT NOT NULL, ",
    }
}

/// The columns with their kinds, each with a comma behind it.
fn push_columns(alloc: Global, out: &mut String, columns: &[Column]) -> Result<(), AllocError>
    requires { length columns.now ≤ 32 }
    ensures { OnOk result (string_bytes out.new ≡ string_bytes out.old ++ columns_text columns.now (length columns.now)) }
{
    for place in 0..columns.len() {
        push_quoted(out, column_name(alloc, columns, place)?.as_str())?;
        out.push_str(words_of(columns[place].kind))?;
    }
    Ok(())
}

/// The comma before the name at the place.
fn comma_before(place: usize) -> &'static str
    ensures { result.now ≡ (if place == 0 then [] else codes ", ") }
{
    if place == 0 {
        return "";
    }
    ", "
}

/// The names of the columns, with commas between them.
fn push_key(alloc: Global, out: &mut String, columns: &[Column]) -> Result<(), AllocError>
    requires { length columns.now ≤ 32 }
    ensures { OnOk result (string_bytes out.new ≡ string_bytes out.old ++ key_text columns.now (length columns.now)) }
{
    for place in 0..columns.len() {
        out.push_str(comma_before(place))?;
        push_quoted(out, column_name(alloc, columns, place)?.as_str())?;
    }
    Ok(())
}

/// The statement that makes a table of this name with these columns.
fn statement_of(alloc: Global, name: &str, columns: &[Column]) -> Result<String, AllocError>
    requires { length columns.now ≤ 32 }
    ensures { IfOk result (λ it. string_bytes it ≡ statement name.now columns.now) }
{
    let mut text = String::from_str(alloc, "CREATE TABLE ")?;
    push_quoted(&mut text, name)?;
    text.push_str(" (")?;
    push_columns(alloc, &mut text, columns)?;
    text.push_str("PRIMARY KEY (")?;
    push_key(alloc, &mut text, columns)?;
    text.push_str(")) STRICT, WITHOUT ROWID")?;
    Ok(text)
}

/// The table of the relation.
pub(crate) fn table_of(alloc: Global, schema: &Schema, r: u8) -> Result<Listed, AllocError>
    requires { r < length schema.now.relations }
    ensures name { IfOk result (λ it. string_bytes it.name ≡ name_at (relation_names schema.now) r) }
    ensures statement { IfOk result (λ it. string_bytes it.statement ≡ statement (name_at (relation_names schema.now) r) (columns_at schema.now r)) }
{
    let name = table_name(alloc, schema, r)?;
    let statement = statement_of(alloc, name.as_str(), schema.columns(r))?;
    Ok(Listed { name, statement })
}

/// Whether the row is that of the relation's table.
pub(crate) fn is_row_of(
    alloc: Global,
    row: &Entry,
    schema: &Schema,
    r: u8,
) -> Result<bool, AllocError>
    requires { r < length schema.now.relations }
    ensures { IfOk result (λ same. same ≡ true → row.now ≡ relation_row schema.now r) }
{
    let table = table_of(alloc, schema, r)?;
    let wanted = listed_row(
        alloc,
        u32::from(r) + 2,
        table.name.as_str(),
        table.statement.as_str(),
    )?;
    Ok(row.is_same(&wanted))
}
