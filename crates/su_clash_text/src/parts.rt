//! Parts of the lines.
ghost use Rattle.std.specs.Prelude.{◌≡◌, ◌++◌, ◌<◌, length, OnOk};
ghost use Rattle.su_schema.specs.Entries.{object_names};
ghost use Rattle.su_ddl.specs.ShownDefinitions.{name_at};
ghost use Rattle.su_show.specs.Values.{row_text, value_text};
ghost use Rattle.su_window.specs.Padded.{IsReading};
ghost use Rattle.su_clash.specs.Clash.{reading_of};
ghost use Rattle.su_clash_text.specs.Lines.{listed, member_text};

use std::alloc::Global;
use su_base::parts::push;
use su_base::{AttrSet, List, NoMemory, Row, Value};
use su_clash::{Member, values_of};
use su_ddl::{attributes_in, push_names};
use su_lex::{Symbol, push_spaced, push_symbol};
use su_query::push_row as push_row_symbols;
use su_schema::Schema;
use su_state::Database;

/// The attributes of the set with commas.
pub(crate) fn push_attributes(
    alloc: Global,
    out: &mut Vec<u8>,
    schema: &Schema,
    set: AttrSet,
) -> Result<(), NoMemory>
    ensures { OnOk result (out.new.items ≡ out.old.items ++ listed schema.now set) }
{
    let names = attributes_in(alloc, schema, set)?;
    let mut symbols = List::new(alloc);
    push_names(alloc, &mut symbols, names.as_slice())?;
    push_spaced(alloc, out, symbols.as_slice())
}

/// The value as it is shown.
pub(crate) fn push_value(alloc: Global, out: &mut Vec<u8>, value: &Value) -> Result<(), NoMemory>
    ensures { OnOk result (out.new.items ≡ out.old.items ++ value_text value.now) }
{
    let symbol = match value {
        Value::Int(number) => Symbol::Int(*number),
        Value::Text(text) => Symbol::Text(text.copy(alloc)?),
    };
    push_symbol(alloc, out, &symbol)
}

/// The row as it is shown.
fn push_row(alloc: Global, out: &mut Vec<u8>, row: &Row) -> Result<(), NoMemory>
    ensures { OnOk result (out.new.items ≡ out.old.items ++ row_text row.now) }
{
    let mut symbols = List::new(alloc);
    push_row_symbols(alloc, &mut symbols, row.as_slice())?;
    push_spaced(alloc, out, symbols.as_slice())
}

/// The name of the object with this number; nothing where there is none.
fn object_name(schema: &Schema, o: u8) -> &str
    ensures { result.now ≡ name_at (object_names schema.now) o }
{
    if o as usize >= schema.objects() {
        return "";
    }
    schema.object_name(o)
}

/// The values of the member, and its object.
pub(crate) fn push_member(
    alloc: Global,
    out: &mut Vec<u8>,
    db: &Database,
    member: &Member,
) -> Result<(), NoMemory>
    requires { IsReading db.now (reading_of member.now) }
    ensures { OnOk result (out.new.items ≡ out.old.items ++ member_text db.now member.now) }
{
    let values = values_of(alloc, db, member)?;
    push_row(alloc, out, &values)?;
    push(out, " of ")?;
    push(out, object_name(db.schema(), member.object))
}
