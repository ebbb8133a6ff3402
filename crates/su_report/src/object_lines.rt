//! Lines about the keys of objects.
ghost use Rattle.std.specs.Prelude.{◌≡◌, ◌++◌, flat_map, option_map, OnOk};
ghost use Rattle.su_report.specs.ObjectLines.{key_line, key_lines};

use crate::parts::{object_name, push_attributes};
use std::alloc::Global;
use su_base::parts::push;
use su_base::{AttrSet, List, NoMemory};
use su_schema::Schema;

fn push_key(
    alloc: Global,
    out: &mut Vec<u8>,
    schema: &Schema,
    o: u8,
    by: &str,
    key: AttrSet,
) -> Result<(), NoMemory>
    ensures { OnOk result (out.new.items ≡ out.old.items ++ key_line schema.now o by.now key) }
{
    push(out, "note key of ")?;
    push(out, object_name(schema, o))?;
    push(out, by)?;
    push(out, ": ")?;
    push_attributes(alloc, out, schema, key)?;
    push(out, "\n")
}

fn push_found(
    alloc: Global,
    out: &mut Vec<u8>,
    schema: &Schema,
    o: u8,
    by: &str,
    keys: &[AttrSet],
) -> Result<(), NoMemory>
    ensures { OnOk result (out.new.items ≡ out.old.items ++ flat_map (key_line schema.now o by.now) keys.now) }
{
    for key in keys {
        push_key(alloc, out, schema, o, by, *key)?;
    }
    Ok(())
}

/// The keys of the object, or that they weren't looked for.
pub(crate) fn push_keys(
    alloc: Global,
    out: &mut Vec<u8>,
    schema: &Schema,
    o: u8,
    by: &str,
    keys: &Option<List<AttrSet>>,
) -> Result<(), NoMemory>
    ensures { OnOk result (out.new.items ≡ out.old.items ++ key_lines schema.now o by.now keys.now) }
{
    if let Some(keys) = keys {
        return push_found(alloc, out, schema, o, by, keys.as_slice());
    }
    push(out, "note keys of ")?;
    push(out, object_name(schema, o))?;
    push(out, by)?;
    push(
        out,
        " aren't looked for: more than 12 attributes may be in one\n",
    )
}
