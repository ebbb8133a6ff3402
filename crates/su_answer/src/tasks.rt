//! What is joined for a kept term.
ghost use Rattle.std.specs.Prelude.{◌≡◌, ◌↔◌, ℕ, ◌<◌, ◌≤◌, IsTrue, All, Some, length, map, take, slice_get, IfOk};
ghost use Rattle.std.specs.List.{AllZip, range_with_len};
ghost use Rattle.su_map.specs.Lists.{row_numbers};
ghost use Rattle.std.specs.FinSet as set;
ghost use Rattle.su_tableau.specs.Parts.{cell_at, row_of};
ghost use Rattle.su_tableau.specs.Essential.{IsEssential};
ghost use Rattle.su_schema.specs.SchemaValue.{ObjectEntry};
ghost use Rattle.su_schema.specs.Entries.{column_of};
ghost use Rattle.su_steps.specs.Objects.{width, attributes_at};
ghost use Rattle.su_schema.specs.SetMembers.{numbers_in};
ghost use Rattle.su_answer.specs.Joined.{comparison_at, IsSourceOf, IsTaskRowOf, IsTaskOf};
ghost use Rattle.su_answer.specs.inside.Joined.{AreSourcesOf};

use std::alloc::Global;
use su_base::{AttrSet, List, NoMemory, ObjSet};
use su_exec::{Compared, Source, Task, TaskRow};
use su_schema::Schema;
use su_steps::sources_within;
use su_tableau::{Sym, Tableau, all_essential, has};

/// The members of the set below `n`, ascending.
fn members(alloc: Global, set: AttrSet, n: u8) -> Result<List<u8>, NoMemory>
    requires { n ≤ 128 }
    ensures { IfOk result (λ numbers. numbers ≡ numbers_in set n) }
{
    let mut numbers = List::new(alloc);
    for a in 0..n {
        numbers.push_if(set.contains(a), a)?;
    }
    Ok(numbers)
}

/// The column from which the object takes the attribute, which is its own.
fn column(schema: &Schema, object: u8, a: u8) -> u8
    requires object { object < length schema.now.objects }
    requires own { IsTrue (set.contains (attributes_at schema.now object) a) }
    ensures { (entry : ObjectEntry) → slice_get schema.now.objects object ≡ Some entry → column_of entry a ≡ Some result }
{
    match schema.object_column(object, a) {
        Some(column) => column,
        None => unreachable!(),
    }
}

/// The object's relation, and its columns for these attributes.
fn source_of(
    alloc: Global,
    schema: &Schema,
    object: u8,
    attributes: &[u8],
) -> Result<Source, NoMemory>
    requires object { object < length schema.now.objects }
    requires own { All (λ a. IsTrue (set.contains (attributes_at schema.now object) a)) attributes.now }
    ensures { IfOk result (IsSourceOf schema.now attributes.now object) }
{
    let mut columns = List::new(alloc);
    for a in attributes {
        columns.push(column(schema, object, *a))?;
    }
    Ok(Source {
        relation: schema.object_relation(object),
        columns,
    })
}

/// The row's symbols at these attributes.
fn cells_of(
    alloc: Global,
    t: &Tableau,
    row: usize,
    attributes: &[u8],
) -> Result<List<Sym>, NoMemory>
    requires row { row < length t.now.rows }
    requires columns { All (λ a. a < t.now.width) attributes.now }
    ensures { IfOk result (λ cells. cells ≡ map (cell_at (row_of t.now row)) attributes.now) }
{
    let mut cells = List::new(alloc);
    for a in attributes {
        cells.push(t.cell(row, *a).copy(alloc)?)?;
    }
    Ok(cells)
}

/// A source for each of the objects.
fn sources_of(
    alloc: Global,
    schema: &Schema,
    objects: ObjSet,
    attributes: &[u8],
) -> Result<List<Source>, NoMemory>
    requires { (o : ℕ) → IsTrue (set.contains objects o) → All (λ a. IsTrue (set.contains (attributes_at schema.now o) a)) attributes.now }
    ensures { IfOk result (AreSourcesOf schema.now attributes.now (length schema.now.objects) objects) }
{
    schema.keeps_its_rules();
    let mut sources = List::new(alloc);
    for o in 0..schema.objects() as u8 {
        if objects.contains(o) {
            let source = source_of(alloc, schema, o, attributes)?;
            sources.push(source)?;
        }
    }
    Ok(sources)
}

/// The row at these columns, with the objects that have them. Where they are the row's essential
/// columns among the rows of a mask, these objects may answer for it.
fn task_row_of(
    alloc: Global,
    schema: &Schema,
    t: &Tableau,
    row: usize,
    columns: AttrSet,
) -> Result<TaskRow, NoMemory>
    requires width { t.now.width ≡ width schema.now }
    requires row { row < length t.now.rows }
    ensures { IfOk result (λ r. (m : ℕ) → ((c : ℕ) → IsTrue (set.contains columns c) ↔ IsEssential t.now m row c) → IsTaskRowOf schema.now t.now m row r) }
{
    t.keeps_its_rules();
    let attributes = members(alloc, columns, t.width())?;
    let attributes = attributes.as_slice();
    let objects = sources_within(schema, columns);
    Ok(TaskRow {
        cells: cells_of(alloc, t, row, attributes)?,
        sources: sources_of(alloc, schema, objects, attributes)?,
    })
}

/// The rows of the mask.
fn rows_of(
    alloc: Global,
    schema: &Schema,
    t: &Tableau,
    mask: u64,
) -> Result<List<TaskRow>, NoMemory>
    requires { t.now.width ≡ width schema.now }
    ensures { IfOk result (AllZip (IsTaskRowOf schema.now t.now mask) (row_numbers t.now mask)) }
{
    t.keeps_its_rules();
    let columns = all_essential(alloc, t, mask)?;
    let mut rows = List::new(alloc);
    for i in 0..t.row_count() {
        if has(mask, i) {
            rows.push(task_row_of(alloc, schema, t, i, *columns.get(i))?)?;
        }
    }
    Ok(rows)
}

/// The outputs of the head.
fn outputs_in_head(alloc: Global, t: &Tableau) -> Result<List<Sym>, NoMemory>
    ensures { IfOk result (λ outputs. outputs ≡ take t.now.outputs t.now.head) }
{
    t.keeps_its_rules();
    let mut outputs = List::new(alloc);
    for symbol in &t.head()[..t.outputs() as usize] {
        outputs.push(symbol.copy(alloc)?)?;
    }
    Ok(outputs)
}

/// The comparison with this number.
fn comparison_of(alloc: Global, t: &Tableau, i: usize) -> Result<Compared, NoMemory>
    requires { i < length t.now.operators }
    ensures { IfOk result (λ c. c ≡ comparison_at t.now i) }
{
    t.keeps_its_rules();
    let head = t.head();
    let place = t.outputs() as usize + 2 * i;
    Ok(Compared {
        left: head[place].copy(alloc)?,
        op: t.operators()[i],
        right: head[place + 1].copy(alloc)?,
    })
}

/// The comparisons of the head.
fn comparisons_of(alloc: Global, t: &Tableau) -> Result<List<Compared>, NoMemory>
    ensures { IfOk result (λ cs. cs ≡ map (comparison_at t.now) (range_with_len 0 (length t.now.operators))) }
{
    let mut comparisons = List::new(alloc);
    for i in 0..t.operators().len() {
        comparisons.push(comparison_of(alloc, t, i)?)?;
    }
    Ok(comparisons)
}

/// The join that answers the rows of the mask.
pub fn task_of(alloc: Global, schema: &Schema, t: &Tableau, mask: u64) -> Result<Task, NoMemory>
    requires { t.now.width ≡ width schema.now }
    ensures { IfOk result (IsTaskOf schema.now t.now mask) }
{
    Ok(Task {
        rows: rows_of(alloc, schema, t, mask)?,
        outputs: outputs_in_head(alloc, t)?,
        comparisons: comparisons_of(alloc, t)?,
    })
}
