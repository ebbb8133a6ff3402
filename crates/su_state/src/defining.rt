//! Definitions in a database.
ghost use Rattle.std.specs.Prelude.{◌≡◌, ◌⊎◌, ◌<◌, length, IfOk, OnOk, IfErr, OnErr};
ghost use Rattle.su_schema.specs.Definitions.{IsDefinitionRefusal, applied};
ghost use Rattle.su_schema.specs.WellNamed.{IsWellNamed};
ghost use Rattle.su_state.specs.Breaches.{Breach};
ghost use Rattle.su_state.specs.Definitions.{Defines, tables_with};
ghost use Rattle.su_state.specs.NewBreaches.{IsStoredBreach, IsNewBreach};
ghost use Rattle.su_state.specs.inside.SomeBreaches.{OfDependency, ThroughObject};
ghost use Rattle.su_state.specs.inside.AddedDefinitions.{HaveTables, HasAdded, IsNarrow, TellsFirst};

use crate::databases::Database;
use crate::faults::DefineFault;
use crate::pairs::least_pair;
use crate::parts::none_clash;
use crate::sides::sides_through;
use std::alloc::Global;
use su_base::{NoMemory, Str, copy_row};
use su_fd::Fd;
use su_index::Table;
use su_schema::{Definition, Schema, SchemaFault};

/// Refuses rows that break the dependency through the object.
fn check_through(
    alloc: Global,
    schema: &Schema,
    tables: &[Table],
    fd: u16,
    object: u8,
) -> Result<(), DefineFault>
    requires tables { HaveTables schema.now tables.now }
    requires fd { fd < length schema.now.fds }
    requires object { object < length schema.now.objects }
    ensures holds { OnOk result ((b : Breach) → ¬ ThroughObject object (OfDependency fd (IsStoredBreach schema.now tables.now)) b) }
    ensures refused { IfErr result (TellsFirst schema.now (ThroughObject object (OfDependency fd (IsStoredBreach schema.now tables.now)))) }
{
    schema.keeps_its_rules();
    let dependency = &schema.fds()[fd as usize];
    let Some(sides) = sides_through(schema, dependency, object) else {
        return Ok(());
    };
    let table = &tables[schema.object_relation(object) as usize];
    if none_clash(alloc, &sides, table.as_slice(), &[])? {
        return Ok(());
    }
    let least = least_pair(alloc, table, &sides)?;
    match least {
        Some(pair) => Err(DefineFault::Breaks {
            fd: Fd {
                left: dependency.left,
                right: dependency.right,
            },
            object: Str::new(alloc, schema.object_name(object))?,
            first: copy_row(alloc, table.row(pair.first))?,
            second: copy_row(alloc, table.row(pair.second))?,
        }),
        None => Ok(()),
    }
}

/// Refuses rows that break the dependency through an object; the first such object is named.
fn check_fd(alloc: Global, schema: &Schema, tables: &[Table], fd: u16) -> Result<(), DefineFault>
    requires tables { HaveTables schema.now tables.now }
    requires fd { fd < length schema.now.fds }
    ensures holds { OnOk result ((b : Breach) → ¬ OfDependency fd (IsStoredBreach schema.now tables.now) b) }
    ensures refused { IfErr result (TellsFirst schema.now (OfDependency fd (IsStoredBreach schema.now tables.now))) }
{
    schema.keeps_its_rules();
    for object in 0..schema.objects() as u8 {
        check_through(alloc, schema, tables, fd, object)?;
    }
    Ok(())
}

/// Refuses rows that break a dependency through the object; the first such dependency is named.
fn check_object(
    alloc: Global,
    schema: &Schema,
    tables: &[Table],
    object: u8,
) -> Result<(), DefineFault>
    requires tables { HaveTables schema.now tables.now }
    requires object { object < length schema.now.objects }
    ensures holds { OnOk result ((b : Breach) → ¬ ThroughObject object (IsStoredBreach schema.now tables.now) b) }
    ensures refused { IfErr result (TellsFirst schema.now (ThroughObject object (IsStoredBreach schema.now tables.now))) }
{
    schema.keeps_its_rules();
    for fd in 0..schema.fds().len() as u16 {
        check_through(alloc, schema, tables, fd, object)?;
    }
    Ok(())
}

/// Refuses rows that break the dependency or the object that the definition has added.
fn check_added(
    alloc: Global,
    schema: &Schema,
    tables: &[Table],
    definition: &Definition,
) -> Result<(), DefineFault>
    requires tables { HaveTables schema.now tables.now }
    requires added { HasAdded schema.now definition.now }
    ensures holds { OnOk result ((b : Breach) → ¬ IsNewBreach schema.now tables.now definition.now b) }
    ensures refused { IfErr result (TellsFirst schema.now (IsNewBreach schema.now tables.now definition.now)) }
{
    schema.keeps_its_rules();
    match definition {
        Definition::Fd { .. } => {
            check_fd(alloc, schema, tables, (schema.fds().len() - 1) as u16)
        }
        Definition::Object { .. } => {
            check_object(alloc, schema, tables, (schema.objects() - 1) as u8)
        }
        _ => Ok(()),
    }
}

/// A copy of the schema, with the definition at the end of its list.
pub fn extended(schema: &Schema, definition: &Definition) -> Result<Schema, SchemaFault>
    requires { IsWellNamed definition.now }
    ensures ok { IfOk result (λ extended. applied schema.now definition.now ≡ Ok extended) }
    ensures refused { IfErr result (λ fault. (fault ≡ SchemaFault.NoMemory) ⊎ IsDefinitionRefusal schema.now definition.now fault) }
{
    let mut copy = schema.copy()?;
    copy.define(definition)?;
    Ok(copy)
}

/// Adds a table without rows for a new relation.
fn add_table(
    alloc: Global,
    tables: &mut Vec<Table>,
    definition: &Definition,
) -> Result<(), NoMemory>
    requires { IsNarrow definition.now }
    ensures ok { OnOk result (tables.new.items ≡ tables_with definition.now tables.old.items) }
    ensures unchanged { OnErr result (tables.new.items ≡ tables.old.items) }
{
    match definition {
        Definition::Relation { columns, .. } => {
            let table = Table::new(alloc, columns.len() as u8)?;
            match tables.push(table) {
                Ok(()) => Ok(()),
                Err(_) => Err(NoMemory),
            }
        }
        _ => Ok(()),
    }
}

impl Database {
    /// Takes the schema, its own with the definition, where the stored rows keep it.
    fn take(&mut self, definition: &Definition, schema: Schema) -> Result<(), DefineFault>
        requires named { IsWellNamed definition.now }
        requires extended { applied self.old.schema definition.now ≡ Ok schema }
        ensures done { IfOk result (λ done. Defines self.old definition.now (Ok done) self.new) }
        ensures refused { IfErr result (λ fault. (fault ≡ DefineFault.NoMemory) ⊎ Defines self.old definition.now (Err fault) self.new) }
        ensures unchanged { OnErr result (self.new ≡ self.old) }
    {
        schema.keeps_its_rules();
        check_added(self.alloc, &schema, self.tables.as_slice(), definition)?;
        add_table(self.alloc, &mut self.tables, definition)?;
        self.schema = schema;
        Ok(())
    }

    /// Adds the definition at the end of its list; a relation has no rows yet, and all rows stay. The
    /// schema with it has been made by `extended`, and is moved here. A dependency or an object that
    /// doesn't hold on the stored rows is refused. That it holds takes one pass over the rows of the
    /// relations that it is about, in memory for their values on the left side; where it doesn't, three
    /// more passes over one relation's rows find the least pair.
    pub fn adopt(&mut self, definition: &Definition, schema: Schema) -> Result<(), DefineFault>
        requires named { IsWellNamed definition.now }
        requires extended { applied self.old.schema definition.now ≡ Ok schema }
        ensures done { IfOk result (λ done. Defines self.old definition.now (Ok done) self.new) }
        ensures refused { IfErr result (λ fault. (fault ≡ DefineFault.NoMemory) ⊎ Defines self.old definition.now (Err fault) self.new) }
        ensures unchanged { OnErr result (self.new ≡ self.old) }
    {
        self.take(definition, schema)?;
        self.note_sides();
        Ok(())
    }

    /// `extended` of its schema, and then `adopt`.
    pub fn define(&mut self, definition: &Definition) -> Result<(), DefineFault>
        requires { IsWellNamed definition.now }
        ensures done { IfOk result (λ done. Defines self.old definition.now (Ok done) self.new) }
        ensures refused { IfErr result (λ fault. (fault ≡ DefineFault.NoMemory) ⊎ Defines self.old definition.now (Err fault) self.new) }
        ensures unchanged { OnErr result (self.new ≡ self.old) }
    {
        match extended(&self.schema, definition) {
            Ok(schema) => self.adopt(definition, schema),
            Err(SchemaFault::NoMemory) => Err(DefineFault::NoMemory),
            Err(fault) => Err(DefineFault::Schema(fault)),
        }
    }
}
