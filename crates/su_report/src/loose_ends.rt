//! The part about what no object uses.
ghost use Rattle.std.specs.Prelude.{◌≡◌, ◌<◌, ◌≤◌, ℕ, List as Items, Bool, IfOk, OnOk, flat_map, ◌++◌, length};
ghost use Rattle.su_maxobj.specs.MaximalObjects.{object_sets as sets_of};
ghost use Rattle.su_report.specs.Parts.{AreFaults, ColumnsOf, ColumnFaults};
ghost use Rattle.su_report.specs.Report.{LooseEnds};
ghost use Rattle.su_report.specs.UnusedLines.{attribute_lines, relation_lines};
ghost use Rattle.su_report.specs.DependencyLines.{nowhere_lines};
ghost use Rattle.su_report.specs.inside.Added.{AddsFaults};
ghost use Rattle.su_show.specs.inside.AddedTexts.{Adds};
ghost use Rattle.su_advise.specs.Lying.{IsKeptNowhere};
ghost use Rattle.su_advise.specs.Unused.{IsUnused, IsUnread};
ghost use Rattle.su_state.specs.Breaches.{fd_at as numbered};

use crate::dependency_lines::push_nowhere;
use crate::parts::fd_at;
use crate::unused_lines::{push_attributes, push_columns, push_relations};
use std::alloc::Global;
use su_advise::{kept_nowhere, unpaired_columns, unread_relations, unused_attributes};
use su_base::{AttrSet, NoMemory};
use su_schema::Schema;

/// The attributes of no object; whether there is one.
fn push_unused(
    alloc: Global,
    out: &mut Vec<u8>,
    schema: &Schema,
    objects: &[AttrSet],
) -> Result<bool, NoMemory>
    ensures { IfOk result (AddsFaults (AreFaults (IsUnused (length schema.now.attributes) objects.now) (attribute_lines schema.now)) out.old.items out.new.items) }
{
    schema.keeps_its_rules();
    let found = unused_attributes(alloc, schema.attributes() as u8, objects)?;
    push_attributes(alloc, out, schema, found.as_slice())?;
    Ok(!found.is_empty())
}

/// The relations over which no object stands; whether there is one.
fn push_unread(alloc: Global, out: &mut Vec<u8>, schema: &Schema) -> Result<bool, NoMemory>
    ensures { IfOk result (AddsFaults (AreFaults (IsUnread schema.now) (relation_lines schema.now)) out.old.items out.new.items) }
{
    let found = unread_relations(alloc, schema)?;
    push_relations(alloc, out, schema, found.as_slice())?;
    Ok(!found.is_empty())
}

/// The columns of the relation from which no object takes an attribute.
fn push_unpaired(alloc: Global, out: &mut Vec<u8>, schema: &Schema, r: u8) -> Result<(), NoMemory>
    requires { r < length schema.now.relations }
    ensures { OnOk result (Adds (ColumnsOf schema.now r) out.old.items out.new.items) }
{
    let found = unpaired_columns(alloc, schema, r)?;
    push_columns(alloc, out, schema, r, found.as_slice())
}

/// Those of all relations; whether there is one.
fn push_all_unpaired(alloc: Global, out: &mut Vec<u8>, schema: &Schema) -> Result<bool, NoMemory>
    ensures { IfOk result (AddsFaults (ColumnFaults schema.now) out.old.items out.new.items) }
{
    schema.keeps_its_rules();
    let before = out.len();
    for r in 0..schema.relations() as u8 {
        push_unpaired(alloc, out, schema, r)?;
    }
    Ok(out.len() > before)
}

/// The dependencies that lie in no object; whether there is one.
fn push_all_nowhere(
    alloc: Global,
    out: &mut Vec<u8>,
    schema: &Schema,
    objects: &[AttrSet],
) -> Result<bool, NoMemory>
    ensures { IfOk result (AddsFaults (AreFaults (IsKeptNowhere schema.now.fds objects.now) (λ i. nowhere_lines schema.now (numbered schema.now i))) out.old.items out.new.items) }
{
    schema.keeps_its_rules();
    let found = kept_nowhere(alloc, schema.fds(), objects)?;
    for i in found.as_slice() {
        push_nowhere(alloc, out, schema, &fd_at(schema, *i))?;
    }
    Ok(!found.is_empty())
}

/// All of it; whether there is a fault.
pub(crate) fn push_loose_ends(
    alloc: Global,
    out: &mut Vec<u8>,
    schema: &Schema,
    objects: &[AttrSet],
) -> Result<bool, NoMemory>
    requires { objects.now ≡ sets_of schema.now }
    ensures { IfOk result (AddsFaults (LooseEnds schema.now) out.old.items out.new.items) }
{
    let attributes = push_unused(alloc, out, schema, objects)?;
    let relations = push_unread(alloc, out, schema)?;
    let columns = push_all_unpaired(alloc, out, schema)?;
    let dependencies = push_all_nowhere(alloc, out, schema, objects)?;
    Ok(attributes | relations | columns | dependencies)
}
