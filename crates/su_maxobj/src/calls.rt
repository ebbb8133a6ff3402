//! The calls on a schema.
ghost use Rattle.std.specs.Prelude.{ℕ, ◌≡◌, ◌<◌, ◌≤◌, ◌↔◌, IsTrue, IfOk, length, take};
ghost use Rattle.std.specs.Prelude.{List as Items};
ghost use Rattle.std.specs.Ordering.{nat_cmp};
ghost use Rattle.std.specs.FinSet as set;
ghost use Rattle.su_maxobj.specs.AdjoinableObjects.{Adjoinable};
ghost use Rattle.su_maxobj.specs.Growth.{IsGrown};
ghost use Rattle.su_maxobj.specs.MaximalObjects.{object_sets, AreMaximalObjects};

use crate::adjoining::{attributes_of, joins};
use crate::growing::grown_from;
use crate::listing::{grown_sets, listed_sets};
use std::alloc::Global;
use su_base::{AttrSet, List, NoMemory, ObjSet};
use su_schema::Schema;

/// Writes the attributes of each object, in order of declaration.
fn read_objects(schema: &Schema, sets: &mut [AttrSet])
    requires { length schema.now.objects ≤ length sets.old }
    ensures { take (length schema.now.objects) sets.new ≡ object_sets schema.now }
{
    schema.keeps_its_rules();
    for o in 0..schema.objects() {
        sets[o] = schema.object_attributes(o as u8);
    }
}

/// Whether `object` may be adjoined to the objects of `have`: it isn't one of them, it shares
/// attributes with them, and no list of objects leads from them to it by attributes outside the
/// closure of the shared ones. Of several objects that join a set the shared attributes are then
/// the only link, so joining them brings no connection that wasn't meant.
///
/// False where `have` is empty. Takes no memory: one closure, and a spreading over the objects.
pub fn adjoinable(schema: &Schema, have: ObjSet, object: u8) -> bool
    requires { object < length schema.now.objects }
    ensures { IsTrue result ↔ Adjoinable schema.now.fds (object_sets schema.now) have object }
{
    schema.keeps_its_rules();
    let mut sets = [AttrSet::empty(); 64];
    read_objects(schema, &mut sets);
    let objects = &sets[..schema.objects()];
    let members = attributes_of(objects, have);
    joins(schema.fds(), objects, have, members, object)
}

/// What the object `seed` grows to: the first object in order of declaration that is adjoinable
/// joins, until there is none. Where several could join, the order of declaration decides.
///
/// The idea is that of Maier and Ullman, "Maximal objects and the semantics of universal relation
/// databases" (1983); which object joins first is a choice of this project. Takes no memory.
pub fn grown(schema: &Schema, seed: u8) -> ObjSet
    requires { seed < length schema.now.objects }
    ensures grown { IsGrown schema.now.fds (object_sets schema.now) seed result }
    ensures only { (other : set.FinSet nat_cmp) → IsGrown schema.now.fds (object_sets schema.now) seed other → other ≡ result }
{
    schema.keeps_its_rules();
    let mut sets = [AttrSet::empty(); 64];
    read_objects(schema, &mut sets);
    grown_from(schema.fds(), &sets[..schema.objects()], seed)
}

/// The maximal objects of the schema: all declared ones in order of declaration, as many as
/// `schema.declared()` has, then the computed ones in the order of their seeds. A computed one is
/// what an object, its seed, grows to, where that lies in no declared one and properly in nothing that
/// an object grows to; of seeds that grow to one set the first counts.
///
/// At most n³ tries for n objects, each of one closure and one spreading; see the crate's head for a
/// figure.
pub fn maximal_objects(alloc: Global, schema: &Schema) -> Result<List<ObjSet>, NoMemory>
    ensures list { IfOk result (AreMaximalObjects schema.now) }
    ensures declared_first { IfOk result (λ sets. take (length schema.now.declared) sets ≡ schema.now.declared) }
    ensures few { IfOk result (λ sets. length sets ≤ 128) }
{
    schema.keeps_its_rules();
    let mut sets = [AttrSet::empty(); 64];
    read_objects(schema, &mut sets);
    let grown = grown_sets(alloc, schema.fds(), &sets[..schema.objects()])?;
    listed_sets(alloc, schema.declared(), grown.as_slice())
}
