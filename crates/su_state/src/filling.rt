//! Whether rows may all be put into a relation at once.
ghost use Rattle.std.specs.Prelude.{◌≡◌, ◌<◌, ◌≤◌, ◌++◌, ℕ, length, All, IfOk};
ghost use Rattle.std.specs.Bool.{OnTrue};
ghost use Rattle.su_rel.specs.Stored.{HaveWidth};
ghost use Rattle.su_schema.specs.Known.{columns_at};
ghost use Rattle.su_state.specs.DatabaseValue.{HasColumnKinds, columns_of, rows_of};
ghost use Rattle.su_state.specs.inside.SomeBreaches.{BreaksNothing};
ghost use Rattle.su_state.specs.inside.Parts.{HaveOneWidth};
ghost use Rattle.su_state.specs.inside.AdmissibleRows.{KeepThrough, MayTake};

use crate::breaches::first_breach;
use crate::changes::MOST;
use crate::checks::check_row;
use crate::databases::Database;
use crate::parts::none_clash;
use crate::sides::sides_through;
use std::alloc::Global;
use su_base::{Column, NoMemory, Row};
use su_index::Table;
use su_schema::Schema;

/// Whether every row fits its relation's columns.
fn are_typed(relation: u8, columns: &[Column], rows: &[Row]) -> bool
    requires { length columns.now ≤ 32 }
    ensures { OnTrue result (All (HasColumnKinds columns.now) rows.now) }
{
    for row in rows {
        if check_row(relation, columns, row).is_err() {
            return false;
        }
    }
    true
}

/// The rows of a relation that are there, and those that are to come.
#[derive(Clone, Copy)]
pub struct Both<'a> {
    pub relation: u8,
    pub stored: &'a [Row],
    pub more: &'a [Row],
}

/// Whether the dependency holds on the rows, where it is enforced through the object.
fn keep_through(
    alloc: Global,
    schema: &Schema,
    both: &Both,
    fd: u16,
    object: u8,
) -> Result<bool, NoMemory>
    requires stored { All (λ row. length row ≤ 32) both.now.stored.now }
    requires more { All (λ row. length row ≤ 32) both.now.more.now }
    requires width { HaveOneWidth (both.now.stored.now ++ both.now.more.now) }
    requires fd { fd < length schema.now.fds }
    requires object { object < length schema.now.objects }
    ensures { IfOk result (λ kept. OnTrue kept (KeepThrough schema.now both.now.relation (both.now.stored.now ++ both.now.more.now) fd object)) }
{
    schema.keeps_its_rules();
    if schema.object_relation(object) != both.relation {
        return Ok(true);
    }
    match sides_through(schema, &schema.fds()[fd as usize], object) {
        Some(sides) => none_clash(alloc, &sides, both.stored, both.more),
        None => Ok(true),
    }
}

/// Whether the dependency holds on the rows, through every object of the relation in which it lies.
fn keep_fd(alloc: Global, schema: &Schema, both: &Both, fd: u16) -> Result<bool, NoMemory>
    requires stored { All (λ row. length row ≤ 32) both.now.stored.now }
    requires more { All (λ row. length row ≤ 32) both.now.more.now }
    requires width { HaveOneWidth (both.now.stored.now ++ both.now.more.now) }
    requires fd { fd < length schema.now.fds }
    ensures { IfOk result (λ kept. OnTrue kept ((o : ℕ) → KeepThrough schema.now both.now.relation (both.now.stored.now ++ both.now.more.now) fd o)) }
{
    schema.keeps_its_rules();
    for object in 0..schema.objects() as u8 {
        if !keep_through(alloc, schema, both, fd, object)? {
            return Ok(false);
        }
    }
    Ok(true)
}

/// Whether every enforced dependency holds on the rows, in one pass over them for each.
fn keep_all(alloc: Global, schema: &Schema, both: &Both) -> Result<bool, NoMemory>
    requires stored { All (λ row. length row ≤ 32) both.now.stored.now }
    requires more { All (λ row. length row ≤ 32) both.now.more.now }
    requires width { HaveOneWidth (both.now.stored.now ++ both.now.more.now) }
    ensures { IfOk result (λ kept. OnTrue kept ((f o : ℕ) → KeepThrough schema.now both.now.relation (both.now.stored.now ++ both.now.more.now) f o)) }
{
    schema.keeps_its_rules();
    for fd in 0..schema.fds().len() as u16 {
        if !keep_fd(alloc, schema, both, fd)? {
            return Ok(false);
        }
    }
    Ok(true)
}

/// Whether none of the rows breaks a dependency with a row that is there.
fn none_breaks(schema: &Schema, table: &Table, relation: u8, rows: &[Row]) -> bool
    requires relation { relation < length schema.now.relations }
    requires width { table.now.width ≡ length (columns_at schema.now relation) }
    requires rows { HaveWidth table.now.width rows.now }
    requires keeps { (f o : ℕ) → KeepThrough schema.now relation table.now.rows f o }
    ensures { OnTrue result (All (BreaksNothing schema.now relation table.now.rows) rows.now) }
{
    for row in rows {
        if first_breach(schema, table, relation, row).is_some() {
            return false;
        }
    }
    true
}

impl Database {
    /// Whether every enforced dependency still holds with the rows, where they are few: each is held
    /// against the rows there by the indexes, and all of them against one another.
    fn keep_few(&self, relation: u8, rows: &[Row]) -> Result<bool, NoMemory>
        requires relation { relation < length self.now.schema.relations }
        requires typed { All (HasColumnKinds (columns_of self.now relation)) rows.now }
        ensures { IfOk result (λ kept. OnTrue kept ((f o : ℕ) → KeepThrough self.now.schema relation (rows_of self.now relation ++ rows.now) f o)) }
    {
        self.schema.keeps_its_rules();
        let table = &self.tables[relation as usize];
        if !none_breaks(&self.schema, table, relation, rows) {
            return Ok(false);
        }
        let both = Both {
            relation,
            stored: &[],
            more: rows,
        };
        keep_all(self.alloc, &self.schema, &both)
    }

    /// The same where they are many: in one pass over the rows there and these.
    fn keep_many(&self, relation: u8, rows: &[Row]) -> Result<bool, NoMemory>
        requires relation { relation < length self.now.schema.relations }
        requires typed { All (HasColumnKinds (columns_of self.now relation)) rows.now }
        ensures { IfOk result (λ kept. OnTrue kept ((f o : ℕ) → KeepThrough self.now.schema relation (rows_of self.now relation ++ rows.now) f o)) }
    {
        self.schema.keeps_its_rules();
        let both = Both {
            relation,
            stored: self.tables[relation as usize].as_slice(),
            more: rows,
        };
        keep_all(self.alloc, &self.schema, &both)
    }

    /// Whether the rows may all be put in at once: then no insert of them is refused. No clause says
    /// when they may not; their inserts one after another tell.
    pub(crate) fn may_take(&self, relation: u8, rows: &[Row]) -> Result<bool, NoMemory>
        requires { relation < length self.now.schema.relations }
        ensures { IfOk result (λ may. OnTrue may (MayTake self.now relation rows.now)) }
    {
        self.schema.keeps_its_rules();
        if !are_typed(relation, self.schema.columns(relation), rows) {
            return Ok(false);
        }
        let there = self.tables[relation as usize].len();
        if there + rows.len() > MOST {
            return Ok(false);
        }
        if rows.len() < there / 8 {
            return self.keep_few(relation, rows);
        }
        self.keep_many(relation, rows)
    }
}
