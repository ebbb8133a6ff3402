//! Lines about what no object uses.
ghost use Rattle.std.specs.Prelude.{◌≡◌, ◌++◌, flat_map, OnOk};
ghost use Rattle.su_report.specs.UnusedLines.{attribute_lines, relation_lines, column_lines, alone_lines};

use crate::advising::{joined, object_of, object_over, object_over_one, push_advice};
use crate::parts::{attribute_name, object_name, relation_name};
use std::alloc::Global;
use su_base::parts::push;
use su_base::{List, NoMemory, Str};
use su_schema::Schema;

fn push_attribute(alloc: Global, out: &mut Vec<u8>, schema: &Schema, a: u8) -> Result<(), NoMemory>
    ensures { OnOk result (out.new.items ≡ out.old.items ++ attribute_lines schema.now a) }
{
    let mut names = List::new(alloc);
    names.push(Str::new(alloc, attribute_name(schema, a))?)?;
    push(out, "fault attribute ")?;
    push(out, attribute_name(schema, a))?;
    push(out, " is of no object\n")?;
    push_advice(alloc, out, &object_of(alloc, names.as_slice())?)
}

/// The attributes of no object.
pub(crate) fn push_attributes(
    alloc: Global,
    out: &mut Vec<u8>,
    schema: &Schema,
    found: &[u8],
) -> Result<(), NoMemory>
    ensures { OnOk result (out.new.items ≡ out.old.items ++ flat_map (attribute_lines schema.now) found.now) }
{
    for a in found {
        push_attribute(alloc, out, schema, *a)?;
    }
    Ok(())
}

fn push_relation(alloc: Global, out: &mut Vec<u8>, schema: &Schema, r: u8) -> Result<(), NoMemory>
    ensures { OnOk result (out.new.items ≡ out.old.items ++ relation_lines schema.now r) }
{
    let name = relation_name(schema, r);
    push(out, "fault relation ")?;
    push(out, name)?;
    push(out, " has no object\n")?;
    push_advice(alloc, out, &object_over(alloc, name, schema.columns_at(r))?)
}

/// The relations over which no object stands.
pub(crate) fn push_relations(
    alloc: Global,
    out: &mut Vec<u8>,
    schema: &Schema,
    found: &[u8],
) -> Result<(), NoMemory>
    ensures { OnOk result (out.new.items ≡ out.old.items ++ flat_map (relation_lines schema.now) found.now) }
{
    for r in found {
        push_relation(alloc, out, schema, *r)?;
    }
    Ok(())
}

fn push_column(
    alloc: Global,
    out: &mut Vec<u8>,
    schema: &Schema,
    r: u8,
    c: u8,
) -> Result<(), NoMemory>
    ensures { OnOk result (out.new.items ≡ out.old.items ++ column_lines schema.now r c) }
{
    let relation = relation_name(schema, r);
    let name = schema.column_name(r, c as usize);
    push(out, "fault column ")?;
    push(out, name)?;
    push(out, " of ")?;
    push(out, relation)?;
    push(out, " has no attribute\n")?;
    push_advice(alloc, out, &object_over_one(alloc, relation, name)?)
}

/// The columns of the relation from which no object takes an attribute.
pub(crate) fn push_columns(
    alloc: Global,
    out: &mut Vec<u8>,
    schema: &Schema,
    r: u8,
    found: &[u8],
) -> Result<(), NoMemory>
    ensures { OnOk result (out.new.items ≡ out.old.items ++ flat_map (column_lines schema.now r) found.now) }
{
    for c in found {
        push_column(alloc, out, schema, r, *c)?;
    }
    Ok(())
}

fn push_alone(alloc: Global, out: &mut Vec<u8>, schema: &Schema, o: u8) -> Result<(), NoMemory>
    ensures { OnOk result (out.new.items ≡ out.old.items ++ alone_lines schema.now o) }
{
    let name = object_name(schema, o);
    push(out, "note object ")?;
    push(out, name)?;
    push(out, " is joined with no other\n")?;
    push_advice(alloc, out, &joined(alloc, name)?)
}

/// The objects that no maximal object joins with another.
pub(crate) fn push_lone_objects(
    alloc: Global,
    out: &mut Vec<u8>,
    schema: &Schema,
    found: &[u8],
) -> Result<(), NoMemory>
    ensures { OnOk result (out.new.items ≡ out.old.items ++ flat_map (alone_lines schema.now) found.now) }
{
    for o in found {
        push_alone(alloc, out, schema, *o)?;
    }
    Ok(())
}
