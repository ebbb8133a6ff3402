//! Tables of a select as SQL.
ghost use Rattle.std.specs.Prelude.{◌≡◌, ◌++◌, length, map, get_or, codes, OnOk, IfOk};
ghost use Rattle.su_sql.specs.Names.{led};
ghost use Rattle.su_sql.specs.Queries.{tables_of};
ghost use Rattle.su_sql.specs.Operands.{value_name};
ghost use Rattle.su_sql.specs.Tables.{source_column, one_at_least, source_columns, source_text, united_text, sources_text, table_text, no_table};

use crate::columns::{push_column, push_relation};
use crate::dialects::Dialect;
use crate::parts::push_led;
use crate::tables::Table;
use std::alloc::Global;
use su_base::parts::{push, push_number};
use su_base::{List, NoMemory};
use su_exec::Source;
use su_schema::Schema;

/// The column of the table's value with this number; 0 where there is none.
fn column_of(source: &Source, value: usize) -> u8
    ensures { result ≡ get_or source.now.columns value 0 }
{
    match source.columns.as_slice().get(value) {
        Some(column) => *column,
        None => 0,
    }
}

fn source_column(
    alloc: Global,
    dialect: Dialect,
    schema: &Schema,
    source: &Source,
    value: usize,
) -> Result<List<u8>, NoMemory>
    ensures { IfOk result (λ part. part ≡ source_column dialect schema.now source.now value) }
{
    let mut out = Vec::new(alloc);
    let column = column_of(source, value);
    push_column(&mut out, dialect, schema, source.relation, column as usize)?;
    push(&mut out, " as c")?;
    push_number(alloc, &mut out, value as u64)?;
    Ok(List::from_vec(out))
}

fn source_columns(
    alloc: Global,
    dialect: Dialect,
    schema: &Schema,
    source: &Source,
) -> Result<List<List<u8>>, NoMemory>
    ensures { IfOk result (λ parts. parts ≡ source_columns dialect schema.now source.now) }
{
    let mut parts = List::new(alloc);
    for value in 0..source.columns.len() {
        parts.push(source_column(alloc, dialect, schema, source, value)?)?;
    }
    Ok(parts)
}

fn push_columns(out: &mut Vec<u8>, parts: &[List<u8>]) -> Result<(), NoMemory>
    ensures { OnOk result (out.new.items ≡ out.old.items ++ led (codes "select ") (codes ", ") (one_at_least parts.now)) }
{
    if parts.is_empty() {
        return push(out, "select 1");
    }
    push_led(out, "select ", ", ", parts)
}

fn source_part(
    alloc: Global,
    dialect: Dialect,
    schema: &Schema,
    source: &Source,
) -> Result<List<u8>, NoMemory>
    ensures { IfOk result (λ part. part ≡ source_text dialect schema.now source.now) }
{
    let columns = source_columns(alloc, dialect, schema, source)?;
    let mut out = Vec::new(alloc);
    push_columns(&mut out, columns.as_slice())?;
    push(&mut out, " from ")?;
    push_relation(&mut out, dialect, schema, source.relation)?;
    Ok(List::from_vec(out))
}

fn source_parts(
    alloc: Global,
    dialect: Dialect,
    schema: &Schema,
    sources: &[Source],
) -> Result<List<List<u8>>, NoMemory>
    ensures { IfOk result (λ parts. parts ≡ map (source_text dialect schema.now) sources.now) }
{
    let mut parts = List::new(alloc);
    for source in sources {
        parts.push(source_part(alloc, dialect, schema, source)?)?;
    }
    Ok(parts)
}

fn push_union(
    alloc: Global,
    out: &mut Vec<u8>,
    dialect: Dialect,
    schema: &Schema,
    sources: &[Source],
) -> Result<(), NoMemory>
    ensures { OnOk result (out.new.items ≡ out.old.items ++ united_text dialect schema.now sources.now) }
{
    let parts = source_parts(alloc, dialect, schema, sources)?;
    push(out, "(")?;
    push_led(out, "", " union ", parts.as_slice())?;
    push(out, ")")
}

fn push_sources(
    alloc: Global,
    out: &mut Vec<u8>,
    dialect: Dialect,
    schema: &Schema,
    sources: &[Source],
) -> Result<(), NoMemory>
    ensures { OnOk result (out.new.items ≡ out.old.items ++ sources_text dialect schema.now sources.now) }
{
    match sources {
        [source] => push_relation(out, dialect, schema, source.relation),
        _ => push_union(alloc, out, dialect, schema, sources),
    }
}

/// The sources of the table with this number.
pub(crate) fn sources_at(tables: &[Table], table: usize) -> &[Source]
    ensures { result.now ≡ (get_or tables.now table no_table).sources }
{
    match tables.get(table) {
        Some(table) => table.sources.as_slice(),
        None => &[],
    }
}

fn table_part(
    alloc: Global,
    dialect: Dialect,
    schema: &Schema,
    tables: &[Table],
    number: usize,
) -> Result<List<u8>, NoMemory>
    ensures { IfOk result (λ part. part ≡ table_text dialect schema.now tables.now number) }
{
    let mut out = Vec::new(alloc);
    push_sources(alloc, &mut out, dialect, schema, sources_at(tables, number))?;
    push(&mut out, " r")?;
    push_number(alloc, &mut out, number as u64)?;
    Ok(List::from_vec(out))
}

pub(crate) fn table_parts(
    alloc: Global,
    dialect: Dialect,
    schema: &Schema,
    tables: &[Table],
) -> Result<List<List<u8>>, NoMemory>
    ensures { IfOk result (λ parts. parts ≡ tables_of dialect schema.now tables.now) }
{
    let mut parts = List::new(alloc);
    for number in 0..tables.len() {
        parts.push(table_part(alloc, dialect, schema, tables, number)?)?;
    }
    Ok(parts)
}

pub(crate) fn push_value_name(
    alloc: Global,
    out: &mut Vec<u8>,
    dialect: Dialect,
    schema: &Schema,
    sources: &[Source],
    value: usize,
) -> Result<(), NoMemory>
    ensures { OnOk result (out.new.items ≡ out.old.items ++ value_name dialect schema.now sources.now value) }
{
    match sources {
        [source] => {
            let column = column_of(source, value);
            push_column(out, dialect, schema, source.relation, column as usize)
        }
        _ => {
            push(out, "c")?;
            push_number(alloc, out, value as u64)
        }
    }
}
