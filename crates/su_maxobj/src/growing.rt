//! What a set of objects grows to.
ghost use Rattle.std.specs.Prelude.{ℕ, ◌≡◌, ◌<◌, ◌≤◌, IsTrue, MatchOption, length};
ghost use Rattle.std.specs.Ordering.{nat_cmp};
ghost use Rattle.std.specs.FinSet as set;
ghost use Rattle.su_base.specs.Sets.{set_at};
ghost use Rattle.su_maxobj.specs.AdjoinableObjects.{IsAttributesOf};
ghost use Rattle.su_maxobj.specs.Growth.{IsFull, IsFirstAdjoinable, IsGrown};
ghost use Rattle.su_maxobj.specs.inside.Ruled.{AreNotAdjoinable};

use crate::adjoining::joins;
use su_base::{AttrSet, ObjSet};
use su_fd::Fd;

/// The first object that may join `have`, whose members have the attributes `members`. Objects of
/// which it is known that they may not join are in `ruled_out`, and those that this call tries are
/// added.
fn first_adjoinable(
    fds: &[Fd],
    objects: &[AttrSet],
    have: ObjSet,
    members: AttrSet,
    ruled_out: &mut ObjSet,
) -> Option<u8>
    requires few { length objects.now ≤ 64 }
    requires members { IsAttributesOf objects.now have members }
    requires ruled_out { AreNotAdjoinable fds.now objects.now have ruled_out.old }
    ensures first { MatchOption result (IsFull fds.now objects.now have) (IsFirstAdjoinable fds.now objects.now have) }
    ensures ruled_out { AreNotAdjoinable fds.now objects.now have ruled_out.new }
{
    for o in 0..objects.len() as u8 {
        if ruled_out.contains(o) {
            continue;
        }
        if joins(fds, objects, have, members, o) {
            return Some(o);
        }
        *ruled_out = ruled_out.insert(o);
    }
    None
}

/// Those of `ruled_out` that share nothing with `added` beyond `members`: what joins there changes
/// nothing for them.
fn unmoved(objects: &[AttrSet], members: AttrSet, ruled_out: ObjSet, added: AttrSet) -> ObjSet
    requires { length objects.now ≤ 64 }
    ensures within { IsTrue (set.is_subset result ruled_out) }
    ensures unmoved { (r : ℕ) → IsTrue (set.contains result r) → IsTrue (set.is_subset (set.intersection (set_at objects.now r) added) members) }
{
    let mut kept = ObjSet::empty();
    for (r, object) in objects.iter().enumerate() {
        if !ruled_out.contains(r as u8) {
            continue;
        }
        if object.meet(added).within(members) {
            kept = kept.insert(r as u8);
        }
    }
    kept
}

/// What `seed` grows to.
pub fn grown_from(fds: &[Fd], objects: &[AttrSet], seed: u8) -> ObjSet
    requires few { length objects.now ≤ 64 }
    requires in_range { seed < length objects.now }
    ensures grown { IsGrown fds.now objects.now seed result }
    ensures only { (other : set.FinSet nat_cmp) → IsGrown fds.now objects.now seed other → other ≡ result }
{
    let mut have = ObjSet::empty().insert(seed);
    let mut members = objects[seed as usize];
    let mut ruled_out = ObjSet::empty();
    while let Some(o) = first_adjoinable(fds, objects, have, members, &mut ruled_out) {
        let own = objects[o as usize];
        ruled_out = unmoved(objects, members, ruled_out, own);
        have = have.insert(o);
        members = members.union(own);
    }
    have
}
