//! What objects have.
ghost use Rattle.std.specs.Prelude.{◌≡◌, ◌<◌, ◌≤◌, length};
ghost use Rattle.su_steps.specs.Objects.{width, attributes_at, objects_of, attributes_of_all};

use su_base::{AttrSet, ObjSet};
use su_schema::Schema;

/// How many attributes there are.
pub fn width_of(schema: &Schema) -> u8
    ensures is { result ≡ width schema.now }
    ensures few { result ≤ 128 }
{
    schema.keeps_its_rules();
    schema.attributes() as u8
}

/// The attributes of an object.
pub fn object_attributes(schema: &Schema, o: u8) -> AttrSet
    requires { o < length schema.now.objects }
    ensures { result ≡ attributes_at schema.now o }
{
    schema.object_attributes(o)
}

/// The attributes of the set's objects together.
pub fn attributes_together(schema: &Schema, set: ObjSet) -> AttrSet
    ensures { result ≡ attributes_of_all schema.now (objects_of schema.now set) }
{
    schema.keeps_its_rules();
    let mut all = AttrSet::empty();
    for o in 0..schema.objects() as u8 {
        if set.contains(o) {
            all = all.union(object_attributes(schema, o));
        }
    }
    all
}

/// How many objects the set has.
pub fn object_count(schema: &Schema, set: ObjSet) -> usize
    ensures is { result ≡ length (objects_of schema.now set) }
    ensures few { result ≤ 64 }
{
    schema.keeps_its_rules();
    let mut count = 0;
    for o in 0..schema.objects() as u8 {
        if set.contains(o) {
            count += 1;
        }
    }
    count
}
