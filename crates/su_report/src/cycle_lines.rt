//! Lines about maximal objects.
ghost use Rattle.std.specs.Prelude.{◌≡◌, ◌++◌, OnOk};
ghost use Rattle.su_report.specs.CycleLines.{acyclic_line, cyclic_line, meeting_line, breaker_line, breaker_lines};

use crate::parts::{
    attribute_name, object_names_of, push_attributes, push_behind_spaces, push_listed, push_objects,
};
use std::alloc::Global;
use su_base::parts::{push, push_number};
use su_base::{AttrSet, List, NoMemory, ObjSet};
use su_schema::Schema;

/// An acyclic maximal object, and its objects as they are taken apart.
pub(crate) fn push_acyclic(
    alloc: Global,
    out: &mut Vec<u8>,
    schema: &Schema,
    k: usize,
    order: &[u8],
) -> Result<(), NoMemory>
    ensures { OnOk result (out.new.items ≡ out.old.items ++ acyclic_line schema.now k order.now) }
{
    let names = object_names_of(alloc, schema, order)?;
    push(out, "note maximal object ")?;
    push_number(alloc, out, k as u64)?;
    push(out, " is acyclic:")?;
    push_behind_spaces(out, names.as_slice())?;
    push(out, "\n")
}

/// A cyclic one, and its core.
pub(crate) fn push_cyclic(
    alloc: Global,
    out: &mut Vec<u8>,
    schema: &Schema,
    k: usize,
    core: ObjSet,
) -> Result<(), NoMemory>
    ensures { OnOk result (out.new.items ≡ out.old.items ++ cyclic_line schema.now k core) }
{
    push(out, "fault maximal object ")?;
    push_number(alloc, out, k as u64)?;
    push(out, " has a cycle:")?;
    push_objects(alloc, out, schema, core)?;
    push(out, "\n")
}

/// The objects of a core that meet in the attribute, where they are several.
pub(crate) fn push_meeting(
    alloc: Global,
    out: &mut Vec<u8>,
    schema: &Schema,
    a: u8,
    objects: &[u8],
) -> Result<(), NoMemory>
    ensures { OnOk result (out.new.items ≡ out.old.items ++ meeting_line schema.now a objects.now) }
{
    if objects.len() < 2 {
        return Ok(());
    }
    let names = object_names_of(alloc, schema, objects)?;
    push(out, "  ")?;
    push_listed(alloc, out, names.as_slice())?;
    push(out, " meet in ")?;
    push(out, attribute_name(schema, a))?;
    push(out, "\n")
}

fn push_breaker(
    alloc: Global,
    out: &mut Vec<u8>,
    schema: &Schema,
    set: AttrSet,
) -> Result<(), NoMemory>
    ensures { OnOk result (out.new.items ≡ out.old.items ++ breaker_line schema.now set) }
{
    push(out, "  acyclic without ")?;
    push_attributes(alloc, out, schema, set)?;
    push(out, "\n")
}

/// The least sets of attributes without which there is no cycle, or that they weren't looked for.
pub(crate) fn push_breakers(
    alloc: Global,
    out: &mut Vec<u8>,
    schema: &Schema,
    found: &Option<List<AttrSet>>,
) -> Result<(), NoMemory>
    ensures { OnOk result (out.new.items ≡ out.old.items ++ breaker_lines schema.now found.now) }
{
    let Some(sets) = found else {
        return push(out, "  more than 12 attributes meet\n");
    };
    for set in sets.as_slice() {
        push_breaker(alloc, out, schema, *set)?;
    }
    Ok(())
}
