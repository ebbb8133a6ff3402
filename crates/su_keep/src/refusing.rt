//! Why a row of the file is refused.
ghost use Rattle.std.specs.Prelude.{◌≡◌, ◌<◌, length};
ghost use Rattle.sqlite_trees.specs.View.{IsQuiet};

use crate::faults::{OpenFault, RowFault, read_fault};
use crate::writing::is_set;
use sqlite_trees::store::Store;
use std::alloc::Global;
use su_base::{AttrSet, List, NoMemory, Row, Str};
use su_entries::read_rows;
use su_schema::Schema;
use su_state::{LoadFault, StateFault};

/// The most rows that a relation has.
pub(crate) const MOST_ROWS: u64 = 1_000_000;

/// The names of the attributes in the set.
fn names_in(alloc: Global, schema: &Schema, set: AttrSet) -> Result<List<Str>, NoMemory> {
    schema.keeps_its_rules();
    let mut names = List::new(alloc);
    for a in 0..schema.attributes() as u8 {
        if set.contains(a) {
            names.push(Str::new(alloc, schema.attribute_name(a))?)?;
        }
    }
    Ok(names)
}

/// The place of the row among these, from 1; 0 where it is none of them.
fn number_of(rows: &[Row], wanted: &Row) -> u64 {
    for at in 0..rows.len() {
        if rows[at] == *wanted {
            return at as u64 + 1;
        }
    }
    0
}

/// The dependency and the object by their names; none where the schema has no such numbers.
fn breaking(
    alloc: Global,
    schema: &Schema,
    fd: u16,
    object: u8,
    other: u64,
) -> Result<Option<RowFault>, NoMemory> {
    let Some(dependency) = schema.fds().get(fd as usize) else {
        return Ok(None);
    };
    if object as usize >= schema.objects() {
        return Ok(None);
    }
    let left = names_in(alloc, schema, dependency.left)?;
    let right = names_in(alloc, schema, dependency.right)?;
    let object = Str::new(alloc, schema.object_name(object))?;
    Ok(Some(RowFault::Breaks {
        left,
        right,
        object,
        other,
    }))
}

/// The column and its kind; none where the relation has no such column.
fn unfit(alloc: Global, schema: &Schema, r: u8, column: u8) -> Result<Option<RowFault>, NoMemory>
    requires { r < length schema.now.relations }
{
    match schema.columns(r).get(column as usize) {
        Some(column) => Ok(Some(RowFault::Kind {
            column: Str::new(alloc, column.name.as_str())?,
            wanted: column.kind,
        })),
        None => Ok(None),
    }
}

/// The number of the row in the relation's table, from 1 in the file's order.
fn number_in<S: Store>(
    alloc: Global,
    store: &mut S,
    relation: &str,
    r: u8,
    row: &Row,
) -> Result<u64, OpenFault>
    ensures quiet { IsQuiet S.Store.view S.Store.faults S.Store.recovers S.Store.is_shielded store.old store.new }
{
    let tree = u32::from(r) + 1;
    if !is_set(store, tree) {
        return Err(OpenFault::NotADatabase);
    }
    match read_rows(alloc, store, tree, MOST_ROWS) {
        Ok(rows) => Ok(number_of(rows.as_slice(), row)),
        Err(fault) => Err(read_fault(alloc, relation, fault)),
    }
}

/// What is wrong with the row that the load of the relation's table refuses.
fn why_refused<S: Store>(
    alloc: Global,
    store: &mut S,
    schema: &Schema,
    r: u8,
    fault: &StateFault,
) -> Result<Option<RowFault>, OpenFault>
    requires { r < length schema.now.relations }
    ensures quiet { IsQuiet S.Store.view S.Store.faults S.Store.recovers S.Store.is_shielded store.old store.new }
{
    match fault {
        StateFault::Width { given, .. } => Ok(Some(RowFault::Width(*given))),
        StateFault::Kind { column, .. } => Ok(unfit(alloc, schema, r, *column)?),
        StateFault::Breaks {
            fd,
            object,
            row,
            ..
        } => {
            let other = number_in(alloc, store, schema.relation_name(r), r, row)?;
            Ok(breaking(alloc, schema, *fd, *object, other)?)
        }
        _ => Ok(None),
    }
}

/// The fault that a row which the load of the relation's table refuses stands for.
pub(crate) fn row_fault<S: Store>(
    alloc: Global,
    store: &mut S,
    schema: &Schema,
    r: u8,
    refused: LoadFault,
) -> OpenFault
    requires { r < length schema.now.relations }
    ensures quiet { IsQuiet S.Store.view S.Store.faults S.Store.recovers S.Store.is_shielded store.old store.new }
{
    let Ok(relation) = Str::new(alloc, schema.relation_name(r)) else {
        return OpenFault::NoMemory;
    };
    match why_refused(alloc, store, schema, r, &refused.fault) {
        Ok(Some(why)) => OpenFault::Refused {
            relation,
            number: refused.number,
            why,
        },
        Ok(None) => OpenFault::TooMany { relation },
        Err(fault) => fault,
    }
}
