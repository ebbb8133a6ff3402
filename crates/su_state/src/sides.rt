//! The sides of a dependency as columns, through an object.
ghost use Rattle.std.specs.Prelude.{◌≡◌, ◌<◌, ◌≤◌, ◌↔◌, ◌==◌, ℕ, length, slice_get, Some, IsTrue};
ghost use Rattle.std.specs.FinSet as set;
ghost use Rattle.su_schema.specs.SchemaValue.{ObjectEntry};
ghost use Rattle.su_state.specs.inside.Sides.{AreColumnsOf, AgreeAt, Clash};
ghost use Rattle.su_state.specs.inside.Found.{AddsColumn, AreSidesIfAny};

use su_base::{AttrSet, Row, Value};
use su_fd::Fd;
use su_schema::Schema;

/// The columns of both sides of a dependency that lies in an object.
#[derive(Drop)]
pub struct Sides {
    pub left: AttrSet,
    pub right: AttrSet,
}

/// The columns, with that from which the object takes the attribute.
fn with_column(schema: &Schema, object: u8, a: u8, columns: AttrSet) -> AttrSet
    requires { object < length schema.now.objects }
    ensures { AddsColumn schema.now object a columns result }
{
    schema.keeps_its_rules();
    match schema.object_column(object, a) {
        Some(c) => columns.insert(c),
        None => columns,
    }
}

/// The columns from which the object takes the attributes.
fn columns_through(schema: &Schema, object: u8, attributes: AttrSet) -> AttrSet
    requires object { object < length schema.now.objects }
    requires attributes { (a : ℕ) → IsTrue (set.contains attributes a) → a < length schema.now.attributes }
    ensures { (entry : ObjectEntry) → slice_get schema.now.objects object ≡ Some entry → AreColumnsOf entry attributes result }
{
    schema.keeps_its_rules();
    let mut columns = AttrSet::empty();
    for a in 0..schema.attributes() as u8 {
        if attributes.contains(a) {
            columns = with_column(schema, object, a, columns);
        }
    }
    columns
}

/// The sides of the dependency, where it lies in the object.
pub fn sides_through(schema: &Schema, fd: &Fd, object: u8) -> Option<Sides>
    requires object { object < length schema.now.objects }
    requires left { (a : ℕ) → IsTrue (set.contains fd.now.left a) → a < length schema.now.attributes }
    requires right { (a : ℕ) → IsTrue (set.contains fd.now.right a) → a < length schema.now.attributes }
    ensures { AreSidesIfAny schema.now fd.now object result }
{
    let attributes = schema.object_attributes(object);
    if !fd.left.within(attributes) {
        return None;
    }
    if !fd.right.within(attributes) {
        return None;
    }
    Some(Sides {
        left: columns_through(schema, object, fd.left),
        right: columns_through(schema, object, fd.right),
    })
}

fn is_one(a: &Value, b: &Value) -> bool
    ensures { IsTrue result ↔ (a.now ≡ b.now) }
{
    a == b
}

/// Whether the rows, of one width, have one value in each of the columns.
pub fn agree(columns: AttrSet, a: &Row, b: &Row) -> bool
    requires same { length a.now ≡ length b.now }
    requires few { length a.now ≤ 32 }
    ensures { IsTrue result ↔ AgreeAt columns a.now b.now }
{
    for c in 0..a.len() {
        if columns.contains(c as u8) {
            if !is_one(a.get(c), b.get(c)) {
                return false;
            }
        }
    }
    true
}

/// Whether the rows agree on the left and differ on the right.
pub fn clash(sides: &Sides, a: &Row, b: &Row) -> bool
    requires same { length a.now ≡ length b.now }
    requires few { length a.now ≤ 32 }
    ensures { IsTrue result ↔ Clash sides.now a.now b.now }
{
    if !agree(sides.left, a, b) {
        return false;
    }
    !agree(sides.right, a, b)
}
