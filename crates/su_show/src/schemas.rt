//! A schema with its maximal objects.
ghost use Rattle.std.specs.Prelude.{◌≡◌, ◌++◌, ◌<◌, ◌≤◌, ◌^◌, length, take, IfOk, OnOk};
ghost use Rattle.su_show.specs.Replies.{schema_reply, maximal_line, maximal_lines};

use crate::values::push_objects;
use std::alloc::Global;
use su_base::parts::{push, push_number};
use su_base::{List, NoMemory, ObjSet};
use su_ddl::show;
use su_schema::Schema;

fn push_maximal(
    alloc: Global,
    out: &mut Vec<u8>,
    schema: &Schema,
    number: usize,
    set: ObjSet,
) -> Result<(), NoMemory>
    ensures { OnOk result (out.new.items ≡ out.old.items ++ maximal_line schema.now number set) }
{
    push(out, "-- maximal object ")?;
    push_number(alloc, out, number as u64)?;
    if number < schema.declared().len() {
        push(out, " declared")?;
    } else {
        push(out, " computed")?;
    }
    push_objects(alloc, out, schema, set)?;
    push(out, "\n")
}

fn push_all_maximal(
    alloc: Global,
    out: &mut Vec<u8>,
    schema: &Schema,
    maximal: &[ObjSet],
) -> Result<(), NoMemory>
    ensures { OnOk result (out.new.items ≡ out.old.items ++ maximal_lines schema.now 0 maximal.now) }
{
    for (number, set) in maximal.iter().enumerate() {
        push_maximal(alloc, out, schema, number, *set)?;
    }
    Ok(())
}

/// The schema as it is written, and its maximal objects, of which the declared ones stand first.
pub fn schema(alloc: Global, schema: &Schema, maximal: &[ObjSet]) -> Result<List<u8>, NoMemory>
    ensures { IfOk result (λ text. text ≡ schema_reply schema.now maximal.now) }
{
    let mut out = show(alloc, schema)?.into_vec();
    push_all_maximal(alloc, &mut out, schema, maximal)?;
    Ok(List::from_vec(out))
}
