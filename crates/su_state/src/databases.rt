//! The database itself.
ghost use Rattle.std.specs.Prelude.{◌≡◌, ◌⊎◌, ◌<◌, [], length, map, All, Some, IfOk, IfErr};
ghost use Rattle.su_schema.specs.Entries.{relation_names, place_of};
ghost use Rattle.su_schema.specs.Valid.{IsValid};
ghost use Rattle.su_state.specs.DatabaseValue.{IsWellKept, empty_tables};
ghost use Rattle.su_state.specs.UnknownRelations.{IsUnknownRelation};

use crate::faults::StateFault;
use std::alloc::Global;
use std::marker::Model;
use su_base::{List, NoMemory, Str};
use su_index::Table;
use su_schema::Schema;

/// A schema and the rows of its relations.
pub struct Database {
    pub(crate) alloc: Global,
    pub(crate) schema: Schema,
    pub(crate) tables: Vec<Table>,
}

/// Not derived, so that it is a single call wherever a database goes out of scope above.
impl Drop for Database {
    fn drop(self) {
        let Database {
            alloc: _,
            schema: _,
            tables: _,
        } = self;
    }
}

impl Model for Database {
    ghost use Rattle.std.specs.Coded.{codes, coded_ℕ};
    ghost use Rattle.std.specs.Ordering.{nat_cmp};
    ghost use Rattle.std.specs.FinSet as set;
    ghost use Rattle.su_base.specs.contracts.attr_sets.AttrSet as attr_set;
    ghost use Rattle.su_schema.specs.contracts.schemas.Schema as schemas;
    ghost use Rattle.su_state.specs.DatabaseValue.{DatabaseValue, IsWellKept};

    ghost Value = { DatabaseValue };

    ghost coded = { Prim.hlevel (codes, schemas.the_row.coded, attr_set.the_row.coded, set.code {R = nat_cmp} coded_ℕ) };

    ghost view = { λ d. record { schema = d.schema; tables = d.tables.items } };

    ghost invariant = { λ d. IsWellKept (record { schema = d.schema; tables = d.tables.items }) };
}

impl Database {
    /// The empty database of a schema: every relation is there, without rows.
    pub fn new(alloc: Global, schema: Schema) -> Result<Database, NoMemory>
        ensures schema { IfOk result (λ db. db.schema ≡ schema) }
        ensures empty { IfOk result (λ db. db.tables ≡ empty_tables schema) }
    {
        schema.keeps_its_rules();
        let mut tables = List::new(alloc);
        for r in 0..schema.relations() as u8 {
            let table = Table::new(alloc, schema.columns(r).len() as u8)?;
            tables.push(table)?;
        }
        let mut db = Database {
            alloc,
            schema,
            tables: tables.into_vec(),
        };
        db.note_sides();
        Ok(db)
    }

    /// For proofs: the database is well kept. It does nothing.
    pub fn keeps_its_rules(&self)
        ensures { IsWellKept self.now }
    {
        let _ = &self.schema;
    }

    /// The schema.
    pub fn schema(&self) -> &Schema
        ensures { result.now ≡ self.now.schema }
    {
        &self.schema
    }

    /// The rows of each relation.
    pub fn tables(&self) -> &[Table]
        ensures { result.now ≡ self.now.tables }
    {
        self.tables.as_slice()
    }

    /// The number of the relation with this name.
    pub fn relation(&self, name: &str) -> Result<u8, StateFault>
        ensures found { IfOk result (λ r. place_of (relation_names self.now.schema) name.now ≡ Some r) }
        ensures refused { IfErr result (λ fault. (fault ≡ StateFault.NoMemory) ⊎ IsUnknownRelation self.now.schema name.now fault) }
    {
        match self.schema.find_relation(name) {
            Some(r) => Ok(r),
            None => Err(StateFault::UnknownRelation(Str::new(self.alloc, name)?)),
        }
    }
}
