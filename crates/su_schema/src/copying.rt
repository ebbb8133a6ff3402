//! A schema of its own that equals another.
ghost use Rattle.std.specs.Prelude.{◌≡◌, map, All, IfOk};
ghost use Rattle.su_schema.specs.Shown.{shown_attribute, shown_relation, shown_object};
ghost use Rattle.su_schema.specs.inside.Kept.{HasItsSet};
ghost use Rattle.su_schema.specs.Entries.{AreDistinctNames};

use crate::faults::SchemaFault;
use crate::links::Object;
use crate::schemas::Schema;
use indexmap::IndexMap;
use std::alloc::Global;
use su_base::{Column, Kind, List, NoMemory};
use su_fd::Fd;

/// Equal columns of their own.
pub fn copy_columns(alloc: Global, columns: &[Column]) -> Result<List<Column>, NoMemory>
    ensures { IfOk result (λ copied. copied ≡ columns.now) }
{
    let mut copied = List::new(alloc);
    for column in columns {
        let name = column.name.copy(alloc)?;
        copied.push(Column {
            name,
            kind: column.kind,
        })?;
    }
    Ok(copied)
}

fn copy_fds(alloc: Global, fds: &[Fd]) -> Result<List<Fd>, NoMemory>
    ensures { IfOk result (λ copied. copied ≡ fds.now) }
{
    let mut copied = List::new(alloc);
    for fd in fds {
        copied.push(Fd {
            left: fd.left,
            right: fd.right,
        })?;
    }
    Ok(copied)
}

fn copy_attributes(
    alloc: Global,
    attributes: &IndexMap<String, Kind>,
) -> Result<IndexMap<String, Kind>, SchemaFault>
    requires { AreDistinctNames (map (λ a. a.name) (map shown_attribute attributes.now.entries)) }
    ensures { IfOk result (λ copied. map shown_attribute copied.entries ≡ map shown_attribute attributes.now.entries) }
{
    let mut copied = IndexMap::new(alloc);
    for a in 0..attributes.len() {
        let (name, kind) = match attributes.get_index(a) {
            Some((name, kind)) => (name, kind),
            None => unreachable!(),
        };
        let name = String::from_str(alloc, name.as_str())?;
        copied.insert(name, *kind)?;
    }
    Ok(copied)
}

fn copy_relations(
    alloc: Global,
    relations: &IndexMap<String, List<Column>>,
) -> Result<IndexMap<String, List<Column>>, SchemaFault>
    requires { AreDistinctNames (map (λ r. r.name) (map shown_relation relations.now.entries)) }
    ensures { IfOk result (λ copied. map shown_relation copied.entries ≡ map shown_relation relations.now.entries) }
{
    let mut copied = IndexMap::new(alloc);
    for r in 0..relations.len() {
        let (name, columns) = match relations.get_index(r) {
            Some((name, columns)) => (name, columns),
            None => unreachable!(),
        };
        let columns = copy_columns(alloc, columns.as_slice())?;
        let name = String::from_str(alloc, name.as_str())?;
        copied.insert(name, columns)?;
    }
    Ok(copied)
}

fn copy_object(alloc: Global, object: &Object) -> Result<Object, NoMemory>
    ensures { IfOk result (λ copied. copied ≡ object.now) }
{
    let links = List::from_vec(Vec::from_slice(alloc, object.links.as_slice())?);
    Ok(Object {
        relation: object.relation,
        attributes: object.attributes,
        links,
    })
}

fn copy_objects(
    alloc: Global,
    objects: &IndexMap<String, Object>,
) -> Result<IndexMap<String, Object>, SchemaFault>
    requires names { AreDistinctNames (map (λ o. o.name) (map shown_object objects.now.entries)) }
    requires sets { All HasItsSet objects.now.entries }
    ensures copied { IfOk result (λ copied. map shown_object copied.entries ≡ map shown_object objects.now.entries) }
    ensures sets { IfOk result (λ copied. All HasItsSet copied.entries) }
{
    let mut copied = IndexMap::new(alloc);
    for o in 0..objects.len() {
        let (name, object) = match objects.get_index(o) {
            Some((name, object)) => (name, object),
            None => unreachable!(),
        };
        let object = copy_object(alloc, object)?;
        let name = String::from_str(alloc, name.as_str())?;
        copied.insert(name, object)?;
    }
    Ok(copied)
}

impl Schema {
    fn copy_parts(&self) -> Result<Schema, SchemaFault>
        ensures { IfOk result (λ schema. schema ≡ self.now) }
    {
        let fds = copy_fds(self.alloc, self.fds.as_slice())?;
        let declared = List::from_vec(Vec::from_slice(self.alloc, self.declared.as_slice())?);
        let attributes = copy_attributes(self.alloc, &self.attributes)?;
        let relations = copy_relations(self.alloc, &self.relations)?;
        let objects = copy_objects(self.alloc, &self.objects)?;
        Ok(Schema {
            alloc: self.alloc,
            attributes,
            relations,
            objects,
            fds,
            declared,
        })
    }

    /// An equal schema of its own.
    pub fn copy(&self) -> Result<Schema, NoMemory>
        ensures { IfOk result (λ schema. schema ≡ self.now) }
    {
        match self.copy_parts() {
            Ok(schema) => Ok(schema),
            Err(_) => Err(NoMemory),
        }
    }
}
