//! Objects that are joined with no other.
ghost use Rattle.std.specs.Prelude.{◌≡◌, ◌<◌, ◌≤◌, ◌↔◌, false, IsTrue, IfOk};
ghost use Rattle.std.specs.List.{list_any};
ghost use Rattle.su_base.specs.Lists.{AreExactly};
ghost use Rattle.su_advise.specs.Alone.{joins_other as joins, IsAlone};

use std::alloc::Global;
use su_base::{List, NoMemory, ObjSet};

/// Whether the set has the object and another.
fn joins_other(o: u8, set: ObjSet) -> bool
    requires { o < 64 }
    ensures { result ≡ joins o set }
{
    set.contains(o) && !set.within(ObjSet::empty().insert(o))
}

/// Whether one of the sets has the object and another.
fn is_joined(maximal: &[ObjSet], o: u8) -> bool
    requires { o < 64 }
    ensures { result ≡ list_any (joins o) maximal.now }
{
    maximal.iter().any(|set| joins_other(o, *set))
}

/// Whether there are several objects, and no set has this one and another.
fn is_alone(objects: u8, maximal: &[ObjSet], o: u8) -> bool
    requires { o < 64 }
    ensures { IsTrue result ↔ (1 < objects) × (list_any (joins o) maximal.now ≡ false) }
{
    objects > 1 && !is_joined(maximal, o)
}

/// Of `objects` objects those that no maximal object joins with another, where there are several.
pub fn lone_objects(alloc: Global, objects: u8, maximal: &[ObjSet]) -> Result<List<u8>, NoMemory>
    requires { objects ≤ 64 }
    ensures { IfOk result (AreExactly (IsAlone objects maximal.now)) }
{
    let mut found = List::new(alloc);
    for o in 0..objects {
        found.push_if(is_alone(objects, maximal, o), o)?;
    }
    Ok(found)
}
