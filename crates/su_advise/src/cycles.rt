//! The core of a maximal object.
ghost use Rattle.std.specs.Prelude.{◌≡◌, ◌<◌, ◌≤◌, ◌↔◌, ℕ, IsTrue, IfOk, MatchOption, length};
ghost use Rattle.std.specs.FinSet.{contains, is_subset};
ghost use Rattle.su_base.specs.Lists.{AreExactly};
ghost use Rattle.su_base.specs.Sets.{set_at};
ghost use Rattle.su_maxobj.specs.AdjoinableObjects.{IsAttributesOf};
ghost use Rattle.su_advise.specs.Cycles.{IsShared, IsEar, IsLastEar, HasNoEar, IsCore, MeetsIn, without as without_one};

use std::alloc::Global;
use su_base::{AttrSet, List, NoMemory, ObjSet};

/// The attributes of the members of the set.
pub fn attributes_of(objects: &[AttrSet], set: ObjSet) -> AttrSet
    requires { length objects.now ≤ 64 }
    ensures { IsAttributesOf objects.now set result }
{
    let mut all = AttrSet::empty();
    for (o, object) in objects.iter().enumerate() {
        if set.contains(o as u8) {
            all = all.union(*object);
        }
    }
    all
}

/// The set without the object.
fn leave_out(set: ObjSet, o: u8) -> ObjSet
    requires { o < 64 }
    ensures { result ≡ without_one set o }
{
    set.minus(ObjSet::empty().insert(o))
}

/// Whether one of the others has all these attributes.
fn is_held(objects: &[AttrSet], others: ObjSet, shared: AttrSet) -> bool
    requires { length objects.now ≤ 64 }
    ensures { IsTrue result ↔ ((p : ℕ) × (p < length objects.now) × IsTrue (contains others p) × IsTrue (is_subset shared (set_at objects.now p))) }
{
    for p in 0..objects.len() {
        if others.contains(p as u8) && shared.within(objects[p]) {
            return true;
        }
    }
    false
}

/// Whether the object is in the set and has a parent there.
fn is_ear(objects: &[AttrSet], set: ObjSet, o: u8) -> bool
    requires few { length objects.now ≤ 64 }
    requires in_range { o < length objects.now }
    requires within { (k : ℕ) → IsTrue (contains set k) → k < length objects.now }
    ensures { IsTrue result ↔ IsEar objects.now set o }
{
    let others = leave_out(set, o);
    let shared = objects[o as usize].meet(attributes_of(objects, others));
    set.contains(o) && is_held(objects, others, shared)
}

/// The last object of the set that has a parent there.
fn last_ear(objects: &[AttrSet], set: ObjSet) -> Option<u8>
    requires few { length objects.now ≤ 64 }
    requires within { (k : ℕ) → IsTrue (contains set k) → k < length objects.now }
    ensures { MatchOption result (HasNoEar objects.now set) (IsLastEar objects.now set) }
{
    let mut found = None;
    for o in 0..objects.len() as u8 {
        if is_ear(objects, set, o) {
            found = Some(o);
        }
    }
    found
}

/// What is left of the set when again and again the last object is taken off that has a parent among
/// those left. One object is left of an acyclic set. (The reduction of Graham, and of Yu and Özsoyoğlu.)
pub fn core_of(objects: &[AttrSet], set: ObjSet) -> ObjSet
    requires few { length objects.now ≤ 64 }
    requires within { (k : ℕ) → IsTrue (contains set k) → k < length objects.now }
    ensures { IsCore objects.now set result }
{
    let mut left = set;
    while let Some(o) = last_ear(objects, left) {
        left = leave_out(left, o);
    }
    left
}

/// Whether the object is one of the core and has the attribute.
fn meets(objects: &[AttrSet], core: ObjSet, o: usize, a: u8) -> bool
    requires few { length objects.now ≤ 64 }
    requires in_range { o < length objects.now }
    ensures { IsTrue result ↔ IsTrue (contains core o) × IsTrue (contains (set_at objects.now o) a) }
{
    core.contains(o as u8) && objects[o].contains(a)
}

/// The objects of the core that have the attribute.
pub fn meeting_in(
    alloc: Global,
    objects: &[AttrSet],
    core: ObjSet,
    a: u8,
) -> Result<List<u8>, NoMemory>
    requires few { length objects.now ≤ 64 }
    requires within { (k : ℕ) → IsTrue (contains core k) → k < length objects.now }
    ensures { IfOk result (AreExactly (MeetsIn objects.now core a)) }
{
    let mut found = List::new(alloc);
    for o in 0..objects.len() {
        found.push_if(meets(objects, core, o, a), o as u8)?;
    }
    Ok(found)
}
