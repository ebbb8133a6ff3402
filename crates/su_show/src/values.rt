//! Dependencies, values and rows as they are shown.
ghost use Rattle.std.specs.Prelude.{◌≡◌, ◌++◌, ◌∷◌, [], OnOk};
ghost use Rattle.su_show.specs.Values.{attributes_text, objects_text, fd_text, value_text, row_text};

use crate::parts::push_names;
use std::alloc::Global;
use su_base::{AttrSet, List, NoMemory, ObjSet, Row, Value};
use su_ddl::{attributes_in, objects_in, push_names as push_name_symbols};
use su_fd::Fd;
use su_lex::{Sign, Symbol, push_spaced, push_symbol};
use su_query::push_row as push_row_symbols;
use su_schema::Schema;

pub(crate) fn push_attributes(
    alloc: Global,
    out: &mut Vec<u8>,
    schema: &Schema,
    set: AttrSet,
) -> Result<(), NoMemory>
    ensures { OnOk result (out.new.items ≡ out.old.items ++ attributes_text schema.now set) }
{
    let names = attributes_in(alloc, schema, set)?;
    push_names(out, names.as_slice())
}

pub(crate) fn push_objects(
    alloc: Global,
    out: &mut Vec<u8>,
    schema: &Schema,
    set: ObjSet,
) -> Result<(), NoMemory>
    ensures { OnOk result (out.new.items ≡ out.old.items ++ objects_text schema.now set) }
{
    let names = objects_in(alloc, schema, set)?;
    push_names(out, names.as_slice())
}

pub(crate) fn push_fd(
    alloc: Global,
    out: &mut Vec<u8>,
    schema: &Schema,
    fd: &Fd,
) -> Result<(), NoMemory>
    ensures { OnOk result (out.new.items ≡ out.old.items ++ fd_text schema.now fd.now) }
{
    let left = attributes_in(alloc, schema, fd.left)?;
    let right = attributes_in(alloc, schema, fd.right)?;
    let mut symbols = List::new(alloc);
    push_name_symbols(alloc, &mut symbols, left.as_slice())?;
    symbols.push(Symbol::Sign(Sign::Arrow))?;
    push_name_symbols(alloc, &mut symbols, right.as_slice())?;
    push_spaced(alloc, out, symbols.as_slice())
}

pub(crate) fn push_value(alloc: Global, out: &mut Vec<u8>, value: &Value) -> Result<(), NoMemory>
    ensures { OnOk result (out.new.items ≡ out.old.items ++ value_text value.now) }
{
    let symbol = match value {
        Value::Int(number) => Symbol::Int(*number),
        Value::Text(text) => Symbol::Text(text.copy(alloc)?),
    };
    push_symbol(alloc, out, &symbol)
}

pub(crate) fn push_row(alloc: Global, out: &mut Vec<u8>, row: &Row) -> Result<(), NoMemory>
    ensures { OnOk result (out.new.items ≡ out.old.items ++ row_text row.now) }
{
    let mut symbols = List::new(alloc);
    push_row_symbols(alloc, &mut symbols, row.as_slice())?;
    push_spaced(alloc, out, symbols.as_slice())
}
