//! The definitions that a schema is made of, by their numbers.
ghost use Rattle.std.specs.Prelude.{◌≡◌, ◌<◌, ◌++◌, ◌∷◌, [], length, map, slice_get, IfOk, OnOk, if◌then◌else◌};
ghost use Rattle.su_schema.specs.Entries.{attribute_names, object_names};
ghost use Rattle.su_ddl.specs.ShownDefinitions.{names_in, attribute_definition, relation_definition, object_definition, fd_definition, maximal_definition, pair_of};
ghost use Rattle.su_ddl.specs.inside.PairAlone.{listed, pairs_of};

use std::alloc::Global;
use su_base::{AttrSet, List, NoMemory, ObjSet, Str};
use su_fd::Fd;
use su_schema::{Definition, Pair, Schema, copy_columns};

fn push_name_if(
    alloc: Global,
    names: &mut List<Str>,
    wanted: bool,
    name: &str,
) -> Result<(), NoMemory>
    ensures { OnOk result (names.new ≡ names.old ++ (if wanted then name.now ∷ [] else [])) }
{
    if wanted {
        names.push(Str::new(alloc, name)?)?;
    }
    Ok(())
}

/// The names of the attributes of a set, in the order of declaration.
pub fn attributes_in(alloc: Global, schema: &Schema, set: AttrSet) -> Result<List<Str>, NoMemory>
    ensures { IfOk result (λ names. names ≡ names_in (attribute_names schema.now) set) }
{
    schema.keeps_its_rules();
    let mut names = List::new(alloc);
    for a in 0..schema.attributes() as u8 {
        push_name_if(alloc, &mut names, set.contains(a), schema.attribute_name(a))?;
    }
    Ok(names)
}

/// The names of the objects of a set, in the order of declaration.
pub fn objects_in(alloc: Global, schema: &Schema, set: ObjSet) -> Result<List<Str>, NoMemory>
    ensures { IfOk result (λ names. names ≡ names_in (object_names schema.now) set) }
{
    schema.keeps_its_rules();
    let mut names = List::new(alloc);
    for o in 0..schema.objects() as u8 {
        push_name_if(alloc, &mut names, set.contains(o), schema.object_name(o))?;
    }
    Ok(names)
}

pub fn attribute_at(alloc: Global, schema: &Schema, a: u8) -> Result<Definition, NoMemory>
    requires { a < length schema.now.attributes }
    ensures { IfOk result (λ d. slice_get (map attribute_definition schema.now.attributes) a ≡ Some d) }
{
    let name = Str::new(alloc, schema.attribute_name(a))?;
    let kind = schema.attribute_kind(a);
    Ok(Definition::Attribute { name, kind })
}

pub fn relation_at(alloc: Global, schema: &Schema, r: u8) -> Result<Definition, NoMemory>
    requires { r < length schema.now.relations }
    ensures { IfOk result (λ d. slice_get (map relation_definition schema.now.relations) r ≡ Some d) }
{
    let name = Str::new(alloc, schema.relation_name(r))?;
    let columns = copy_columns(alloc, schema.columns(r))?;
    Ok(Definition::Relation { name, columns })
}

/// The pair of an attribute of an object on the relation `r`, if it is the object's.
fn pair_at(alloc: Global, schema: &Schema, o: u8, r: u8, a: u8) -> Result<Option<Pair>, NoMemory>
    requires object { o < length schema.now.objects }
    requires relation { slice_get (map (λ x. x.relation) schema.now.objects) o ≡ Some r }
    requires attribute { a < length schema.now.attributes }
    ensures { IfOk result (λ p. slice_get (map (λ x. pair_of schema.now x a) schema.now.objects) o ≡ Some p) }
{
    match schema.object_column(o, a) {
        Some(c) => {
            let attribute = Str::new(alloc, schema.attribute_name(a))?;
            let column = Str::new(alloc, schema.column_name(r, c as usize))?;
            Ok(Some(Pair { attribute, column }))
        }
        None => Ok(None),
    }
}

fn push_pair_if(pairs: &mut List<Pair>, pair: Option<Pair>) -> Result<(), NoMemory>
    ensures { OnOk result (pairs.new ≡ pairs.old ++ listed pair) }
{
    if let Some(pair) = pair {
        pairs.push(pair)?;
    }
    Ok(())
}

fn pairs_at(alloc: Global, schema: &Schema, o: u8, r: u8) -> Result<List<Pair>, NoMemory>
    requires object { o < length schema.now.objects }
    requires relation { slice_get (map (λ x. x.relation) schema.now.objects) o ≡ Some r }
    ensures { IfOk result (λ ps. slice_get (map (pairs_of schema.now) schema.now.objects) o ≡ Some ps) }
{
    schema.keeps_its_rules();
    let mut pairs = List::new(alloc);
    for a in 0..schema.attributes() as u8 {
        push_pair_if(&mut pairs, pair_at(alloc, schema, o, r, a)?)?;
    }
    Ok(pairs)
}

pub fn object_at(alloc: Global, schema: &Schema, o: u8) -> Result<Definition, NoMemory>
    requires { o < length schema.now.objects }
    ensures { IfOk result (λ d. slice_get (map (object_definition schema.now) schema.now.objects) o ≡ Some d) }
{
    schema.keeps_its_rules();
    let name = Str::new(alloc, schema.object_name(o))?;
    let r = schema.object_relation(o);
    let relation = Str::new(alloc, schema.relation_name(r))?;
    let pairs = pairs_at(alloc, schema, o, r)?;
    Ok(Definition::Object {
        name,
        relation,
        pairs,
    })
}

pub fn fd_of(alloc: Global, schema: &Schema, fd: &Fd) -> Result<Definition, NoMemory>
    ensures { IfOk result (λ d. d ≡ fd_definition schema.now fd.now) }
{
    let left = attributes_in(alloc, schema, fd.left)?;
    let right = attributes_in(alloc, schema, fd.right)?;
    Ok(Definition::Fd { left, right })
}

pub fn maximal_of(alloc: Global, schema: &Schema, set: ObjSet) -> Result<Definition, NoMemory>
    ensures { IfOk result (λ d. d ≡ maximal_definition schema.now set) }
{
    let objects = objects_in(alloc, schema, set)?;
    Ok(Definition::Maximal { objects })
}
