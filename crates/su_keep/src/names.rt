//! The names of tables and columns.
//!
//! A table has its relation's name. Where an earlier relation has the same name but for capitals, or
//! the name begins with `sqlite_`, which SQLite keeps for itself, the relation's number from 1 and a dot
//! stand before it. A column is named by the same rule, by the earlier columns of its relation.
ghost use Rattle.std.specs.Prelude.{◌≡◌, ◌<◌, ◌≤◌, ◌+◌, ◌^◌, ◌++◌, ◌||◌, [], codes, decimal, length, take, string_bytes, IfOk, if◌then◌else◌};
ghost use Rattle.std.specs.List.{list_any};
ghost use Rattle.su_schema.specs.Entries.{relation_names, column_names};
ghost use Rattle.su_keep.specs.Listed.{is_reserved, name_at};
ghost use Rattle.sqlite_trees.specs.Sound.{same_name as is_same_name};

use sqlite_trees::sound::same_name;
use std::alloc::{AllocError, Global};
use su_base::Column;
use su_schema::Schema;

/// The table of the schema's text. The dot keeps it apart from the name of any relation.
pub(crate) const TEXT_TABLE: &str = "sysu.schema";

/// Whether SQLite keeps the name for itself.
fn is_reserved(name: &str) -> bool
    ensures { result ≡ is_reserved name.now }
{
    let bytes = name.as_bytes();
    same_name(&bytes[..bytes.len().min(7)], "sqlite_".as_bytes())
}

/// Whether SQLite takes the name for that of one of the first so many relations.
fn is_met_before(schema: &Schema, first: u8, name: &str) -> bool
    requires { first ≤ length schema.now.relations }
    ensures { result ≡ list_any (is_same_name name.now) (take first (relation_names schema.now)) }
{
    let mut is_met = false;
    for r in 0..first {
        is_met = is_met || same_name(name.as_bytes(), schema.relation_name(r).as_bytes());
    }
    is_met
}

/// Whether SQLite takes the name for that of one of the columns.
fn is_met_among(columns: &[Column], name: &str) -> bool
    ensures { result ≡ list_any (is_same_name name.now) (column_names columns.now) }
{
    for column in columns {
        if same_name(name.as_bytes(), column.name.as_str().as_bytes()) {
            return true;
        }
    }
    false
}

/// The name, with its number from 1 before it where that is asked for.
fn named(alloc: Global, name: &str, place: u64, is_numbered: bool) -> Result<String, AllocError>
    requires { place < 2 ^ 32 }
    ensures { IfOk result (λ it. string_bytes it ≡ (if is_numbered then decimal (place + 1) ++ codes "." else []) ++ name.now) }
{
    let mut out = String::new(alloc);
    if is_numbered {
        out.push_str((place + 1).to_string(alloc)?.as_str())?;
        out.push_str(".")?;
    }
    out.push_str(name)?;
    Ok(out)
}

/// Whether the name needs its number.
fn needs_number(name: &str, is_met: bool) -> bool
    ensures { result ≡ (is_reserved name.now || is_met) }
{
    is_reserved(name) || is_met
}

/// The name of the relation's table.
pub(crate) fn table_name(alloc: Global, schema: &Schema, r: u8) -> Result<String, AllocError>
    requires { r < length schema.now.relations }
    ensures { IfOk result (λ it. string_bytes it ≡ name_at (relation_names schema.now) r) }
{
    let name = schema.relation_name(r);
    let is_met = is_met_before(schema, r, name);
    named(alloc, name, r as u64, needs_number(name, is_met))
}

/// The name of the column at the place.
pub(crate) fn column_name(
    alloc: Global,
    columns: &[Column],
    place: usize,
) -> Result<String, AllocError>
    requires at { place < length columns.now }
    requires few { length columns.now ≤ 32 }
    ensures { IfOk result (λ it. string_bytes it ≡ name_at (column_names columns.now) place) }
{
    let name = columns[place].name.as_str();
    let is_met = is_met_among(&columns[..place], name);
    named(alloc, name, place as u64, needs_number(name, is_met))
}
