//! The first dependency that a new row would break.
ghost use Rattle.std.specs.Prelude.{◌≡◌, ◌<◌, ℕ, length};
ghost use Rattle.su_schema.specs.Known.{columns_at};
ghost use Rattle.su_state.specs.Breaches.{IsBreachWith};
ghost use Rattle.su_state.specs.inside.AdmissibleRows.{KeepThrough};
ghost use Rattle.su_state.specs.inside.SomeBreaches.{OfDependency, ThroughObject, IsFirstBreach};

use crate::clashes::least_breach;
use crate::sides::sides_through;
use su_base::Row;
use su_index::Table;
use su_schema::Schema;

/// The first of some breaches of a row: a dependency, an object, and the position of the stored row
/// with which the row breaks the dependency through the object.
#[derive(Drop)]
pub struct FirstBreach {
    pub fd: u16,
    pub object: u8,
    pub position: usize,
}

/// The first breach of the dependency through the object, which the stored rows keep: the one with the
/// least row.
fn breach_through(
    schema: &Schema,
    table: &Table,
    relation: u8,
    row: &Row,
    fd: u16,
    object: u8,
) -> Option<FirstBreach>
    requires relation { relation < length schema.now.relations }
    requires width { table.now.width ≡ length (columns_at schema.now relation) }
    requires row { length row.now ≡ table.now.width }
    requires fd { fd < length schema.now.fds }
    requires object { object < length schema.now.objects }
    requires keeps { KeepThrough schema.now relation table.now.rows fd object }
    ensures { IsFirstBreach (ThroughObject object (OfDependency fd (IsBreachWith schema.now relation table.now.rows row.now))) table.now.rows row.now result }
{
    schema.keeps_its_rules();
    if schema.object_relation(object) != relation {
        return None;
    }
    let sides = sides_through(schema, &schema.fds()[fd as usize], object)?;
    let position = least_breach(table, &sides, row)?;
    Some(FirstBreach {
        fd,
        object,
        position,
    })
}

/// The first breach of the dependency: through the first object through which the row breaks it.
fn breach_of(
    schema: &Schema,
    table: &Table,
    relation: u8,
    row: &Row,
    fd: u16,
) -> Option<FirstBreach>
    requires relation { relation < length schema.now.relations }
    requires width { table.now.width ≡ length (columns_at schema.now relation) }
    requires row { length row.now ≡ table.now.width }
    requires fd { fd < length schema.now.fds }
    requires keeps { (o : ℕ) → KeepThrough schema.now relation table.now.rows fd o }
    ensures { IsFirstBreach (OfDependency fd (IsBreachWith schema.now relation table.now.rows row.now)) table.now.rows row.now result }
{
    schema.keeps_its_rules();
    for object in 0..schema.objects() as u8 {
        if let Some(breach) = breach_through(schema, table, relation, row, fd, object) {
            return Some(breach);
        }
    }
    None
}

/// The first breach of an enforced dependency, where the stored rows keep them all.
pub fn first_breach(schema: &Schema, table: &Table, relation: u8, row: &Row) -> Option<FirstBreach>
    requires relation { relation < length schema.now.relations }
    requires width { table.now.width ≡ length (columns_at schema.now relation) }
    requires row { length row.now ≡ table.now.width }
    requires keeps { (f o : ℕ) → KeepThrough schema.now relation table.now.rows f o }
    ensures { IsFirstBreach (IsBreachWith schema.now relation table.now.rows row.now) table.now.rows row.now result }
{
    schema.keeps_its_rules();
    for fd in 0..schema.fds().len() as u16 {
        if let Some(breach) = breach_of(schema, table, relation, row, fd) {
            return Some(breach);
        }
    }
    None
}
