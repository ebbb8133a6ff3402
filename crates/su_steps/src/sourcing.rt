//! The sources of a row.
ghost use Rattle.std.specs.Prelude.{◌≡◌, ◌<◌, ◌↔◌, ℕ, IsTrue, length};
ghost use Rattle.std.specs.Int.{bit_at};
ghost use Rattle.std.specs.FinSet as set;
ghost use Rattle.su_tableau.specs.Tableaux.{Tab};
ghost use Rattle.su_steps.specs.Sources.{IsSource, HasAttributes, IsEssentialSet};

use crate::objects::object_attributes;
use su_base::{AttrSet, ObjSet};
use su_schema::Schema;
use su_tableau::{Tableau, essential};

/// The objects that have these attributes: the sources of each row whose essential columns they
/// are. Takes no memory.
pub fn sources_within(schema: &Schema, columns: AttrSet) -> ObjSet
    ensures objects { (o : ℕ) → IsTrue (set.contains result o) ↔ HasAttributes schema.now columns o }
    ensures sources { (t : Tab) (m row : ℕ) → IsEssentialSet t m row columns → (o : ℕ) → IsTrue (set.contains result o) ↔ IsSource schema.now t m row o }
{
    schema.keeps_its_rules();
    let mut found = ObjSet::empty();
    for o in 0..schema.objects() as u8 {
        if columns.within(object_attributes(schema, o)) {
            found = found.insert(o);
        }
    }
    found
}

/// The objects whose attributes include the essential columns of the row, among the rows of the
/// mask: each of them may answer for the row. Takes no memory.
pub fn sources(schema: &Schema, t: &Tableau, mask: u64, row: usize) -> ObjSet
    requires row { row < length t.now.rows }
    requires in_mask { bit_at mask row ≡ 1 }
    ensures { (o : ℕ) → IsTrue (set.contains result o) ↔ IsSource schema.now t.now mask row o }
{
    sources_within(schema, essential(t, mask, row))
}
