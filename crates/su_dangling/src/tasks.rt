//! The join of the views of some objects.
ghost use Rattle.std.specs.Prelude.{◌≡◌, ◌<◌, ◌≤◌, IsTrue, All, Some, length, slice_get, IfOk};
ghost use Rattle.std.specs.List.{AllZip};
ghost use Rattle.std.specs.FinSet as set;
ghost use Rattle.su_schema.specs.SchemaValue.{ObjectEntry};
ghost use Rattle.su_schema.specs.Entries.{column_of};
ghost use Rattle.su_schema.specs.Cuts.{attributes_at};
ghost use Rattle.su_schema.specs.SetMembers.{numbers_in};
ghost use Rattle.su_dangling.specs.inside.Tasks.{variables_of, members_of, AreColumnsOf, IsRowFor, IsJoinOf};

use std::alloc::Global;
use su_base::{AttrSet, List, NoMemory, ObjSet};
use su_exec::{Source, Task, TaskRow};
use su_schema::Schema;
use su_tableau::Sym;

/// The attributes of the set, ascending.
fn members(alloc: Global, schema: &Schema, set: AttrSet) -> Result<List<u8>, NoMemory>
    ensures { IfOk result (λ numbers. numbers ≡ members_of schema.now set) }
{
    schema.keeps_its_rules();
    let mut numbers = List::new(alloc);
    for a in 0..schema.attributes() as u8 {
        numbers.push_if(set.contains(a), a)?;
    }
    Ok(numbers)
}

/// The attributes as variables.
fn variables(alloc: Global, attributes: &[u8]) -> Result<List<Sym>, NoMemory>
    ensures { IfOk result (λ cells. cells ≡ variables_of attributes.now) }
{
    let mut cells = List::new(alloc);
    for a in attributes {
        cells.push(Sym::Var(*a as u32))?;
    }
    Ok(cells)
}

/// The column from which the object takes the attribute, which is its own.
fn column(schema: &Schema, object: u8, a: u8) -> u8
    requires object { object < length schema.now.objects }
    requires own { IsTrue (set.contains (attributes_at schema.now object) a) }
    ensures { (entry : ObjectEntry) → slice_get schema.now.objects object ≡ Some entry → column_of entry a ≡ Some result }
{
    match schema.object_column(object, a) {
        Some(column) => column,
        None => unreachable!(),
    }
}

/// The object's columns for these attributes.
fn columns_of(
    alloc: Global,
    schema: &Schema,
    object: u8,
    attributes: &[u8],
) -> Result<List<u8>, NoMemory>
    requires object { object < length schema.now.objects }
    requires own { All (λ a. IsTrue (set.contains (attributes_at schema.now object) a)) attributes.now }
    ensures { IfOk result (AreColumnsOf schema.now object attributes.now) }
{
    let mut columns = List::new(alloc);
    for a in attributes {
        columns.push(column(schema, object, *a))?;
    }
    Ok(columns)
}

/// A row of the object's attributes, over its relation.
fn row_for(alloc: Global, schema: &Schema, object: u8) -> Result<TaskRow, NoMemory>
    requires { object < length schema.now.objects }
    ensures { IfOk result (IsRowFor schema.now object) }
{
    let attributes = members(alloc, schema, schema.object_attributes(object))?;
    let attributes = attributes.as_slice();
    let cells = variables(alloc, attributes)?;
    let columns = columns_of(alloc, schema, object, attributes)?;
    let relation = schema.object_relation(object);
    let mut sources = List::new(alloc);
    sources.push(Source { relation, columns })?;
    Ok(TaskRow { cells, sources })
}

/// A row for each of the objects.
fn rows_for(alloc: Global, schema: &Schema, objects: ObjSet) -> Result<List<TaskRow>, NoMemory>
    ensures { IfOk result (AllZip (IsRowFor schema.now) (numbers_in objects (length schema.now.objects))) }
{
    schema.keeps_its_rules();
    let mut rows = List::new(alloc);
    for o in 0..schema.objects() as u8 {
        if objects.contains(o) {
            let row = row_for(alloc, schema, o)?;
            rows.push(row)?;
        }
    }
    Ok(rows)
}

/// The join of the views of these objects, asked for the attributes of the object.
pub fn join_of(
    alloc: Global,
    schema: &Schema,
    objects: ObjSet,
    object: u8,
) -> Result<Task, NoMemory>
    requires { object < length schema.now.objects }
    ensures { IfOk result (IsJoinOf schema.now objects object) }
{
    let rows = rows_for(alloc, schema, objects)?;
    let attributes = members(alloc, schema, schema.object_attributes(object))?;
    let outputs = variables(alloc, attributes.as_slice())?;
    let comparisons = List::new(alloc);
    Ok(Task {
        rows,
        outputs,
        comparisons,
    })
}
