//! Definitions of relations, and changes of rows, as SQL.
ghost use Rattle.std.specs.Prelude.{◌≡◌, ◌++◌, ◌<◌, length, map, OnOk, IfOk};
ghost use Rattle.std.specs.List.{range_with_len};
ghost use Rattle.su_schema.specs.Known.{columns_at};
ghost use Rattle.su_sql.specs.Texts.{value_text};
ghost use Rattle.su_sql.specs.Changes.{column_line, create_text, equality_text, is_row_text, insert_text, delete_text, print_text};
ghost use Rattle.su_sql.specs.Names.{column_text};
ghost use Rattle.su_sql.specs.Conditions.{delete_where_text};

use crate::columns::{push_column, push_relation};
use crate::conditions::push_condition;
use crate::dialects::Dialect;
use crate::parts::push_led;
use crate::words::{kind_name, push_name, push_value};
use crate::writing::push_order;
use std::alloc::Global;
use su_base::parts::push;
use su_base::{Column, List, NoMemory, Row, Value};
use su_query::NamedCond;
use su_schema::Schema;

fn column_part(alloc: Global, dialect: Dialect, column: &Column) -> Result<List<u8>, NoMemory>
    ensures { IfOk result (λ part. part ≡ column_line dialect column.now) }
{
    let mut out = Vec::new(alloc);
    push_name(&mut out, dialect, column.name.as_str())?;
    push(&mut out, " ")?;
    push(&mut out, kind_name(dialect, column.kind))?;
    Ok(List::from_vec(out))
}

fn column_parts(
    alloc: Global,
    dialect: Dialect,
    columns: &[Column],
) -> Result<List<List<u8>>, NoMemory>
    ensures { IfOk result (λ parts. parts ≡ map (column_line dialect) columns.now) }
{
    let mut parts = List::new(alloc);
    for column in columns {
        parts.push(column_part(alloc, dialect, column)?)?;
    }
    Ok(parts)
}

/// The table of a relation.
pub fn create(
    alloc: Global,
    dialect: Dialect,
    schema: &Schema,
    relation: u8,
) -> Result<List<u8>, NoMemory>
    ensures { IfOk result (λ text. text ≡ create_text dialect schema.now relation) }
{
    let parts = column_parts(alloc, dialect, schema.columns_at(relation))?;
    let mut out = Vec::new(alloc);
    push(&mut out, "create table ")?;
    push_relation(&mut out, dialect, schema, relation)?;
    push_led(&mut out, " (", ", ", parts.as_slice())?;
    push(&mut out, ");\n")?;
    Ok(List::from_vec(out))
}

fn value_parts(alloc: Global, dialect: Dialect, row: &[Value]) -> Result<List<List<u8>>, NoMemory>
    ensures { IfOk result (λ parts. parts ≡ map (value_text dialect) row.now) }
{
    let mut parts = List::new(alloc);
    for value in row {
        let mut part = Vec::new(alloc);
        push_value(alloc, &mut part, dialect, value)?;
        parts.push(List::from_vec(part))?;
    }
    Ok(parts)
}

fn equality_part(
    alloc: Global,
    dialect: Dialect,
    schema: &Schema,
    relation: u8,
    row: &Row,
    column: usize,
) -> Result<List<u8>, NoMemory>
    requires { column < length row.now }
    ensures { IfOk result (λ part. part ≡ equality_text dialect schema.now relation row.now column) }
{
    let mut out = Vec::new(alloc);
    push_column(&mut out, dialect, schema, relation, column)?;
    push(&mut out, " = ")?;
    push_value(alloc, &mut out, dialect, row.get(column))?;
    Ok(List::from_vec(out))
}

fn equality_parts(
    alloc: Global,
    dialect: Dialect,
    schema: &Schema,
    relation: u8,
    row: &Row,
) -> Result<List<List<u8>>, NoMemory>
    ensures { IfOk result (λ parts. parts ≡ map (equality_text dialect schema.now relation row.now) (range_with_len 0 (length row.now))) }
{
    let mut parts = List::new(alloc);
    for column in 0..row.len() {
        parts.push(equality_part(alloc, dialect, schema, relation, row, column)?)?;
    }
    Ok(parts)
}

fn push_is_row(
    alloc: Global,
    out: &mut Vec<u8>,
    dialect: Dialect,
    schema: &Schema,
    relation: u8,
    row: &Row,
) -> Result<(), NoMemory>
    ensures { OnOk result (out.new.items ≡ out.old.items ++ is_row_text dialect schema.now relation row.now) }
{
    let parts = equality_parts(alloc, dialect, schema, relation, row)?;
    push_led(out, " where ", " and ", parts.as_slice())
}

/// The insert of a row, unless it is there.
pub fn insert(
    alloc: Global,
    dialect: Dialect,
    schema: &Schema,
    relation: u8,
    row: &Row,
) -> Result<List<u8>, NoMemory>
    ensures { IfOk result (λ text. text ≡ insert_text dialect schema.now relation row.now) }
{
    let values = value_parts(alloc, dialect, row.as_slice())?;
    let mut out = Vec::new(alloc);
    push(&mut out, "insert into ")?;
    push_relation(&mut out, dialect, schema, relation)?;
    push_led(&mut out, " select ", ", ", values.as_slice())?;
    push(&mut out, " where not exists (select 1 from ")?;
    push_relation(&mut out, dialect, schema, relation)?;
    push_is_row(alloc, &mut out, dialect, schema, relation, row)?;
    push(&mut out, ");\n")?;
    Ok(List::from_vec(out))
}

/// The delete of a row.
pub fn delete(
    alloc: Global,
    dialect: Dialect,
    schema: &Schema,
    relation: u8,
    row: &Row,
) -> Result<List<u8>, NoMemory>
    ensures { IfOk result (λ text. text ≡ delete_text dialect schema.now relation row.now) }
{
    let mut out = Vec::new(alloc);
    push(&mut out, "delete from ")?;
    push_relation(&mut out, dialect, schema, relation)?;
    push_is_row(alloc, &mut out, dialect, schema, relation, row)?;
    push(&mut out, ";\n")?;
    Ok(List::from_vec(out))
}

/// The delete of the rows for which a condition is true.
pub fn delete_where(
    alloc: Global,
    dialect: Dialect,
    schema: &Schema,
    relation: u8,
    cond: &NamedCond,
) -> Result<List<u8>, NoMemory>
    ensures { IfOk result (λ text. text ≡ delete_where_text dialect schema.now relation cond.now) }
{
    let mut out = Vec::new(alloc);
    push(&mut out, "delete from ")?;
    push_relation(&mut out, dialect, schema, relation)?;
    push(&mut out, " where ")?;
    push_condition(alloc, &mut out, dialect, cond)?;
    push(&mut out, ";\n")?;
    Ok(List::from_vec(out))
}

fn shown_part(
    alloc: Global,
    dialect: Dialect,
    schema: &Schema,
    relation: u8,
    column: usize,
) -> Result<List<u8>, NoMemory>
    ensures { IfOk result (λ part. part ≡ column_text dialect schema.now relation column) }
{
    let mut out = Vec::new(alloc);
    push_column(&mut out, dialect, schema, relation, column)?;
    Ok(List::from_vec(out))
}

fn shown_parts(
    alloc: Global,
    dialect: Dialect,
    schema: &Schema,
    relation: u8,
) -> Result<List<List<u8>>, NoMemory>
    ensures { IfOk result (λ parts. parts ≡ map (column_text dialect schema.now relation) (range_with_len 0 (length (columns_at schema.now relation)))) }
{
    let mut parts = List::new(alloc);
    for column in 0..schema.columns_at(relation).len() {
        parts.push(shown_part(alloc, dialect, schema, relation, column)?)?;
    }
    Ok(parts)
}

/// The rows of a relation in order.
pub fn print(
    alloc: Global,
    dialect: Dialect,
    schema: &Schema,
    relation: u8,
) -> Result<List<u8>, NoMemory>
    ensures { IfOk result (λ text. text ≡ print_text dialect schema.now relation) }
{
    let parts = shown_parts(alloc, dialect, schema, relation)?;
    let mut out = Vec::new(alloc);
    push_led(&mut out, "select distinct ", ", ", parts.as_slice())?;
    push(&mut out, "\nfrom ")?;
    push_relation(&mut out, dialect, schema, relation)?;
    push_order(alloc, &mut out, schema.columns_at(relation).len())?;
    push(&mut out, ";\n")?;
    Ok(List::from_vec(out))
}
