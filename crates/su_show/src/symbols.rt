//! Symbols of a term as they are shown.
ghost use Rattle.std.specs.Prelude.{◌≡◌, ◌++◌, ◌/◌, ◌%◌, [], length, slice_index_or, OnOk};
ghost use Rattle.su_lex.specs.Spelling.{spaced};
ghost use Rattle.su_schema.specs.Entries.{attribute_names, object_names};
ghost use Rattle.su_ddl.specs.ShownDefinitions.{name_at};
ghost use Rattle.su_query.specs.ShownParts.{ref_symbols, value_symbols};
ghost use Rattle.su_steps.specs.Objects.{attributes_at, width};
ghost use Rattle.su_show.specs.QueryCauses.{variable_text};
ghost use Rattle.su_show.specs.Symbols.{variable_at, pair_ref, symbol_text, symbol_at};

use std::alloc::Global;
use su_base::parts::push;
use su_base::{AttrSet, NoMemory, Str, Value};
use su_lex::{Symbol, push_symbol};
use su_query::Resolved;
use su_schema::Schema;
use su_tableau::Sym;

/// The blank variable as it is shown.
const BLANK: &str = "-";

/// A variable as it is shown.
pub(crate) fn variable(variable: &Option<Str>) -> &str
    ensures { result.now ≡ variable_text variable.now }
{
    match variable {
        Some(name) => name.as_str(),
        None => BLANK,
    }
}

/// The variable with this number; the blank one where there is no such variable.
pub(crate) fn variable_of(resolved: &Resolved, number: usize) -> &str
    ensures { result.now ≡ variable_text (variable_at resolved.now number) }
{
    match resolved.variables.as_slice().get(number) {
        Some(name) => variable(name),
        None => BLANK,
    }
}

/// The name of an attribute; nothing where there is no such attribute.
pub(crate) fn attribute_name(schema: &Schema, number: usize) -> &str
    ensures { result.now ≡ name_at (attribute_names schema.now) number }
{
    schema.keeps_its_rules();
    if number >= schema.attributes() {
        return "";
    }
    schema.attribute_name(number as u8)
}

/// The name of an object; nothing where there is no such object.
pub(crate) fn object_name(schema: &Schema, number: u8) -> &str
    ensures { result.now ≡ name_at (object_names schema.now) number }
{
    if number as usize >= schema.objects() {
        return "";
    }
    schema.object_name(number)
}

/// The attributes of an object; none where there is no such object.
pub(crate) fn object_attributes(schema: &Schema, number: u8) -> AttrSet
    ensures { result ≡ attributes_at schema.now number }
{
    if number as usize >= schema.objects() {
        return AttrSet::empty();
    }
    schema.object_attributes(number)
}

/// The numbers of the variable and of the attribute of a pair. Without attributes there are no pairs.
fn pair(schema: &Schema, number: u32) -> (usize, usize)
    ensures variable { result.0 ≡ number / width schema.now }
    ensures attribute { result.1 ≡ number % width schema.now }
{
    let number = number as usize;
    match schema.attributes() {
        0 => (0, number),
        width => (number / width, number % width),
    }
}

fn push_pair(
    out: &mut Vec<u8>,
    schema: &Schema,
    resolved: &Resolved,
    number: u32,
) -> Result<(), NoMemory>
    ensures { OnOk result (out.new.items ≡ out.old.items ++ spaced (ref_symbols (pair_ref schema.now resolved.now number))) }
{
    let (variable, attribute) = pair(schema, number);
    if let Some(Some(name)) = resolved.variables.as_slice().get(variable) {
        push(out, name.as_str())?;
        push(out, ".")?;
    }
    push(out, attribute_name(schema, attribute))
}

fn push_value(alloc: Global, out: &mut Vec<u8>, value: &Value) -> Result<(), NoMemory>
    ensures { OnOk result (out.new.items ≡ out.old.items ++ spaced (value_symbols value.now)) }
{
    match value {
        Value::Int(number) => push_symbol(alloc, out, &Symbol::Int(*number)),
        Value::Text(content) => push_symbol(alloc, out, &Symbol::Text(content.copy(alloc)?)),
    }
}

pub(crate) fn push_sym(
    alloc: Global,
    out: &mut Vec<u8>,
    schema: &Schema,
    resolved: &Resolved,
    sym: &Sym,
) -> Result<(), NoMemory>
    ensures { OnOk result (out.new.items ≡ out.old.items ++ symbol_text schema.now resolved.now sym.now) }
{
    match sym {
        Sym::Const(value) => push_value(alloc, out, value),
        Sym::Var(number) => push_pair(out, schema, resolved, *number),
    }
}

/// The symbol at a place of a list; nothing where there is no such place.
pub(crate) fn push_sym_at(
    alloc: Global,
    out: &mut Vec<u8>,
    schema: &Schema,
    resolved: &Resolved,
    symbols: &[Sym],
    place: usize,
) -> Result<(), NoMemory>
    ensures { OnOk result (out.new.items ≡ out.old.items ++ symbol_at schema.now resolved.now symbols.now place) }
{
    match symbols.get(place) {
        Some(sym) => push_sym(alloc, out, schema, resolved, sym),
        None => Ok(()),
    }
}
