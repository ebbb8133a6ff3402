//! A schema's objects as sets of attributes.
ghost use Rattle.std.specs.Prelude.{◌≡◌, ◌≤◌, IfOk, length};
ghost use Rattle.su_maxobj.specs.MaximalObjects.{object_sets as sets_of};

use std::alloc::Global;
use su_base::{AttrSet, List, NoMemory};
use su_schema::Schema;

/// The attributes of each object, in order of declaration.
pub fn object_sets(alloc: Global, schema: &Schema) -> Result<List<AttrSet>, NoMemory>
    ensures sets { IfOk result (λ sets. sets ≡ sets_of schema.now) }
    ensures few { IfOk result (λ sets. length sets ≤ 64) }
{
    schema.keeps_its_rules();
    let mut sets = List::new(alloc);
    for o in 0..schema.objects() as u8 {
        sets.push(schema.object_attributes(o))?;
    }
    Ok(sets)
}
