//! The lines of one object.
ghost use Rattle.std.specs.Prelude.{◌≡◌, ◌++◌, flat_map, OnOk};
ghost use Rattle.su_schema.specs.Entries.{object_names};
ghost use Rattle.su_ddl.specs.ShownDefinitions.{name_at};
ghost use Rattle.su_show.specs.Values.{row_text};
ghost use Rattle.su_dangling_text.specs.Lines.{place_text, scope_text, joined_text, left_text, row_line, object_lines};

use crate::scopes::Scope;
use std::alloc::Global;
use su_base::parts::{push, push_number};
use su_base::{List, NoMemory, Row};
use su_dangling::Dangling;
use su_lex::push_spaced;
use su_query::push_row as push_row_symbols;
use su_schema::Schema;

/// The name of the object with this number; nothing where there is none.
fn object_name(schema: &Schema, o: u8) -> &str
    ensures { result.now ≡ name_at (object_names schema.now) o }
{
    if o as usize >= schema.objects() {
        return "";
    }
    schema.object_name(o)
}

/// The row as it is shown.
fn push_row(alloc: Global, out: &mut Vec<u8>, row: &Row) -> Result<(), NoMemory>
    ensures { OnOk result (out.new.items ≡ out.old.items ++ row_text row.now) }
{
    let mut symbols = List::new(alloc);
    push_row_symbols(alloc, &mut symbols, row.as_slice())?;
    push_spaced(alloc, out, symbols.as_slice())
}

fn push_row_line(alloc: Global, out: &mut Vec<u8>, row: &Row) -> Result<(), NoMemory>
    ensures { OnOk result (out.new.items ≡ out.old.items ++ row_line row.now) }
{
    push(out, "  ")?;
    push_row(alloc, out, row)?;
    push(out, "\n")
}

fn push_row_lines(alloc: Global, out: &mut Vec<u8>, rows: &[Row]) -> Result<(), NoMemory>
    ensures { OnOk result (out.new.items ≡ out.old.items ++ flat_map row_line rows.now) }
{
    for row in rows {
        push_row_line(alloc, out, row)?;
    }
    Ok(())
}

fn place(core: bool) -> &'static str
    ensures { result.now ≡ place_text core }
{
    if core {
        "note core of maximal object "
    } else {
        "note maximal object "
    }
}

fn push_scope_name(alloc: Global, out: &mut Vec<u8>, scope: &Scope) -> Result<(), NoMemory>
    ensures { OnOk result (out.new.items ≡ out.old.items ++ scope_text scope.now) }
{
    push(out, place(scope.core))?;
    push_number(alloc, out, scope.maximal as u64)?;
    push(out, ": ")
}

fn push_joined(
    alloc: Global,
    out: &mut Vec<u8>,
    schema: &Schema,
    found: &Dangling,
) -> Result<(), NoMemory>
    ensures { OnOk result (out.new.items ≡ out.old.items ++ joined_text schema.now found.now) }
{
    push_number(alloc, out, found.joined)?;
    push(out, " of ")?;
    push_number(alloc, out, found.rows)?;
    push(out, " rows of ")?;
    push(out, object_name(schema, found.object))
}

fn push_left(alloc: Global, out: &mut Vec<u8>, found: &Dangling) -> Result<(), NoMemory>
    ensures { OnOk result (out.new.items ≡ out.old.items ++ left_text found.now) }
{
    push(out, " are in the join of all its objects, ")?;
    push_number(alloc, out, found.dangling)?;
    push(out, " are not\n")
}

/// The object's counts, and the least of its rows that dangle.
pub(crate) fn push_object(
    alloc: Global,
    out: &mut Vec<u8>,
    schema: &Schema,
    scope: &Scope,
    found: &Dangling,
) -> Result<(), NoMemory>
    ensures { OnOk result (out.new.items ≡ out.old.items ++ object_lines schema.now scope.now found.now) }
{
    push_scope_name(alloc, out, scope)?;
    push_joined(alloc, out, schema, found)?;
    push_left(alloc, out, found)?;
    push_row_lines(alloc, out, found.least.as_slice())
}
