//! Attributes, relations and columns that no object uses.
ghost use Rattle.std.specs.Prelude.{◌≡◌, ◌<◌, ◌≤◌, ◌↔◌, IsTrue, IfOk, length};
ghost use Rattle.su_base.specs.Lists.{AreExactly};
ghost use Rattle.su_advise.specs.Unused.{is_used as used_in, IsUnused, IsRead, IsUnread, TakesFrom, IsPaired, IsUnpaired};

use std::alloc::Global;
use su_base::{AttrSet, List, NoMemory};
use su_schema::Schema;

/// Whether some object has the attribute.
fn is_used(objects: &[AttrSet], a: u8) -> bool
    ensures { result ≡ used_in objects.now a }
{
    objects.iter().any(|object| object.contains(a))
}

/// Of `width` attributes those that no object has. Their values can't be asked for.
pub fn unused_attributes(
    alloc: Global,
    width: u8,
    objects: &[AttrSet],
) -> Result<List<u8>, NoMemory>
    ensures { IfOk result (AreExactly (IsUnused width objects.now)) }
{
    let mut found = List::new(alloc);
    for a in 0..width {
        found.push_if(!is_used(objects, a), a)?;
    }
    Ok(found)
}

/// Whether an object stands over the relation.
fn is_read(schema: &Schema, r: u8) -> bool
    ensures { IsTrue result ↔ IsRead schema.now r }
{
    schema.keeps_its_rules();
    for o in 0..schema.objects() as u8 {
        if schema.object_relation(o) == r {
            return true;
        }
    }
    false
}

/// The relations over which no object stands. No query reads their rows.
pub fn unread_relations(alloc: Global, schema: &Schema) -> Result<List<u8>, NoMemory>
    ensures { IfOk result (AreExactly (IsUnread schema.now)) }
{
    schema.keeps_its_rules();
    let mut found = List::new(alloc);
    for r in 0..schema.relations() as u8 {
        found.push_if(!is_read(schema, r), r)?;
    }
    Ok(found)
}

/// Whether the object takes an attribute from the column.
fn takes_from(schema: &Schema, o: u8, c: u8) -> bool
    requires { o < length schema.now.objects }
    ensures { IsTrue result ↔ TakesFrom schema.now o c }
{
    schema.keeps_its_rules();
    for a in 0..schema.attributes() as u8 {
        if schema.object_column(o, a) == Some(c) {
            return true;
        }
    }
    false
}

/// Whether an object over the relation takes an attribute from its column.
fn is_paired(schema: &Schema, r: u8, c: u8) -> bool
    ensures { IsTrue result ↔ IsPaired schema.now r c }
{
    schema.keeps_its_rules();
    for o in 0..schema.objects() as u8 {
        if schema.object_relation(o) == r && takes_from(schema, o, c) {
            return true;
        }
    }
    false
}

/// Whether some object stands over the relation, and none takes an attribute from its column.
fn is_unpaired(schema: &Schema, r: u8, c: u8) -> bool
    ensures { IsTrue result ↔ IsRead schema.now r × ¬ IsPaired schema.now r c }
{
    is_read(schema, r) && !is_paired(schema, r, c)
}

/// The columns of the relation from which no object takes an attribute, where some object stands over it.
/// What they hold is read by `print` alone.
pub fn unpaired_columns(alloc: Global, schema: &Schema, r: u8) -> Result<List<u8>, NoMemory>
    requires { r < length schema.now.relations }
    ensures { IfOk result (AreExactly (IsUnpaired schema.now r)) }
{
    // For the proof: the relation has at most 32 columns.
    let _few = schema.columns(r);
    let mut found = List::new(alloc);
    for c in 0..schema.columns_at(r).len() as u8 {
        found.push_if(is_unpaired(schema, r, c), c)?;
    }
    Ok(found)
}
