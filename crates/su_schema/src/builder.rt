//! The calls that add to a schema. Each adds its definition whole, or changes nothing.
ghost use Rattle.std.specs.Prelude.{◌≡◌, ◌⊎◌, ◌<◌, [], length, IfOk, IfErr, OnOk, OnErr};
ghost use Rattle.su_base.specs.Name.{IsName};
ghost use Rattle.su_schema.specs.Entries.{column_names};
ghost use Rattle.su_schema.specs.NameChecks.{first_failing, apart_checks};
ghost use Rattle.su_schema.specs.Definitions.{applied, IsDefinitionRefusal};
ghost use Rattle.su_schema.specs.WellNamed.{IsWellNamed};
ghost use Rattle.su_schema.specs.inside.Refusals.{IsRefusalBy};

use crate::copying::copy_columns;
use crate::definitions::{Definition, Pair};
use crate::faults::{SchemaFault, SchemaLimit};
use crate::readers::place_among;
use crate::schemas::Schema;
use std::alloc::Global;
use su_base::{Column, Kind, List, Str};
use su_fd::Fd;

/// Refuses the first column whose name stands before it.
fn check_names(alloc: Global, columns: &[Column]) -> Result<(), SchemaFault>
    ensures passed { OnOk result (first_failing (apart_checks [] (column_names columns.now)) ≡ None) }
    ensures refused { IfErr result (IsRefusalBy (apart_checks [] (column_names columns.now))) }
{
    for (c, column) in columns.iter().enumerate() {
        if place_among(&columns[..c], column.name.as_str()).is_some() {
            let name = column.name.copy(alloc)?;
            return Err(SchemaFault::Twice(name));
        }
    }
    Ok(())
}

impl Schema {
    /// Adds an attribute of the universal relation. `Twice` where one has the name, then `Limit` where
    /// 128 are there.
    pub fn attribute(&mut self, name: &str, kind: Kind) -> Result<(), SchemaFault>
        requires { IsWellNamed (Definition.Attribute name.now kind) }
        ensures ok { OnOk result (applied self.old (Definition.Attribute name.now kind) ≡ Ok self.new) }
        ensures refused { IfErr result (λ fault. (fault ≡ SchemaFault.NoMemory) ⊎ IsDefinitionRefusal self.old (Definition.Attribute name.now kind) fault) }
        ensures unchanged { OnErr result (self.new ≡ self.old) }
    {
        if self.find_attribute(name).is_some() {
            return Err(SchemaFault::Twice(Str::new(self.alloc, name)?));
        }
        if self.attributes() >= 128 {
            return Err(SchemaFault::Limit(SchemaLimit::Attributes));
        }
        let name = String::from_str(self.alloc, name)?;
        self.attributes.insert(name, kind)?;
        Ok(())
    }

    /// Adds a stored relation, with copies of the columns. `Twice` where one has the name, `Limit` where
    /// 64 are there, `Limit` where there are over 32 columns, then `Twice` for the first column whose
    /// name stands before it.
    pub fn relation(&mut self, name: &str, columns: &[Column]) -> Result<(), SchemaFault>
        requires { IsWellNamed (Definition.Relation name.now columns.now) }
        ensures ok { OnOk result (applied self.old (Definition.Relation name.now columns.now) ≡ Ok self.new) }
        ensures refused { IfErr result (λ fault. (fault ≡ SchemaFault.NoMemory) ⊎ IsDefinitionRefusal self.old (Definition.Relation name.now columns.now) fault) }
        ensures unchanged { OnErr result (self.new ≡ self.old) }
    {
        if self.find_relation(name).is_some() {
            return Err(SchemaFault::Twice(Str::new(self.alloc, name)?));
        }
        if self.relations() >= 64 {
            return Err(SchemaFault::Limit(SchemaLimit::Relations));
        }
        if columns.len() > 32 {
            return Err(SchemaFault::Limit(SchemaLimit::Columns));
        }
        check_names(self.alloc, columns)?;
        let columns = copy_columns(self.alloc, columns)?;
        let name = String::from_str(self.alloc, name)?;
        self.relations.insert(name, columns)?;
        Ok(())
    }

    /// Adds an object: each pair takes an attribute from a column of the relation. `Twice` where one has
    /// the name, `Limit` where 64 are there, `Unknown` for the relation, and then pair by pair: `Unknown`
    /// for the attribute and for the column, `Twice` for each that stands in a pair before, and
    /// `KindDiffers`.
    pub fn object(&mut self, name: &str, relation: &str, pairs: &[Pair]) -> Result<(), SchemaFault>
        requires { IsWellNamed (Definition.Object name.now relation.now pairs.now) }
        ensures ok { OnOk result (applied self.old (Definition.Object name.now relation.now pairs.now) ≡ Ok self.new) }
        ensures refused { IfErr result (λ fault. (fault ≡ SchemaFault.NoMemory) ⊎ IsDefinitionRefusal self.old (Definition.Object name.now relation.now pairs.now) fault) }
        ensures unchanged { OnErr result (self.new ≡ self.old) }
    {
        if self.find_object(name).is_some() {
            return Err(SchemaFault::Twice(Str::new(self.alloc, name)?));
        }
        if self.objects() >= 64 {
            return Err(SchemaFault::Limit(SchemaLimit::Objects));
        }
        let relation = match self.find_relation(relation) {
            Some(r) => r,
            None => return Err(SchemaFault::Unknown(Str::new(self.alloc, relation)?)),
        };
        let object = self.joined(relation, pairs)?;
        let name = String::from_str(self.alloc, name)?;
        self.objects.insert(name, object)?;
        Ok(())
    }

    /// Adds a functional dependency. `Limit` where 256 are there; then name by name, the left side first,
    /// `Unknown`, and `Twice` within its side.
    pub fn fd(&mut self, left: &[Str], right: &[Str]) -> Result<(), SchemaFault>
        requires { IsWellNamed (Definition.Fd left.now right.now) }
        ensures ok { OnOk result (applied self.old (Definition.Fd left.now right.now) ≡ Ok self.new) }
        ensures refused { IfErr result (λ fault. (fault ≡ SchemaFault.NoMemory) ⊎ IsDefinitionRefusal self.old (Definition.Fd left.now right.now) fault) }
        ensures unchanged { OnErr result (self.new ≡ self.old) }
    {
        if self.fds().len() >= 256 {
            return Err(SchemaFault::Limit(SchemaLimit::Fds));
        }
        let left = self.attributes_named(left)?;
        let right = self.attributes_named(right)?;
        self.fds.push(Fd { left, right })?;
        Ok(())
    }

    /// Declares a set of objects to be a maximal object. `Limit` where 64 are there; then name by name
    /// `Unknown`, and `Twice`.
    pub fn maximal(&mut self, objects: &[Str]) -> Result<(), SchemaFault>
        requires { IsWellNamed (Definition.Maximal objects.now) }
        ensures ok { OnOk result (applied self.old (Definition.Maximal objects.now) ≡ Ok self.new) }
        ensures refused { IfErr result (λ fault. (fault ≡ SchemaFault.NoMemory) ⊎ IsDefinitionRefusal self.old (Definition.Maximal objects.now) fault) }
        ensures unchanged { OnErr result (self.new ≡ self.old) }
    {
        if self.declared().len() >= 64 {
            return Err(SchemaFault::Limit(SchemaLimit::Maximal));
        }
        let objects = self.objects_named(objects)?;
        self.declared.push(objects)?;
        Ok(())
    }

    /// Does and answers what the call of the definition's form does, with its faults in their order.
    pub fn define(&mut self, definition: &Definition) -> Result<(), SchemaFault>
        requires { IsWellNamed definition.now }
        ensures ok { OnOk result (applied self.old definition.now ≡ Ok self.new) }
        ensures refused { IfErr result (λ fault. (fault ≡ SchemaFault.NoMemory) ⊎ IsDefinitionRefusal self.old definition.now fault) }
        ensures unchanged { OnErr result (self.new ≡ self.old) }
    {
        match definition {
            Definition::Attribute { name, kind } => self.attribute(name.as_str(), *kind),
            Definition::Relation { name, columns } => {
                self.relation(name.as_str(), columns.as_slice())
            }
            Definition::Object {
                name,
                relation,
                pairs,
            } => self.object(name.as_str(), relation.as_str(), pairs.as_slice()),
            Definition::Fd { left, right } => self.fd(left.as_slice(), right.as_slice()),
            Definition::Maximal { objects } => self.maximal(objects.as_slice()),
        }
    }
}
