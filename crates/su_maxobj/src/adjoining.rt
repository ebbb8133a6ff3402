//! Whether an object may join a set of objects.
ghost use Rattle.std.specs.Prelude.{◌<◌, ◌≤◌, ◌↔◌, IsTrue, length};
ghost use Rattle.su_maxobj.specs.AdjoinableObjects.{IsAttributesOf, HangTogether, Adjoinable};

use crate::spreading::apart;
use su_base::{AttrSet, ObjSet};
use su_fd::{Fd, closure};

/// The attributes of the members of `have`.
pub fn attributes_of(objects: &[AttrSet], have: ObjSet) -> AttrSet
    requires { length objects.now ≤ 64 }
    ensures { IsAttributesOf objects.now have result }
{
    let mut all = AttrSet::empty();
    for (o, object) in objects.iter().enumerate() {
        if have.contains(o as u8) {
            all = all.union(*object);
        }
    }
    all
}

/// Whether two sets of attributes hang together by what they share.
fn hang_together(fds: &[Fd], objects: &[AttrSet], s: AttrSet, t: AttrSet) -> bool
    ensures { IsTrue result ↔ HangTogether fds.now objects.now s t }
{
    let shared = s.meet(t);
    if shared.is_empty() {
        return false;
    }
    apart(objects, closure(fds, shared), s, t)
}

/// Whether `object` may join `have`, whose members have the attributes `members`.
pub fn joins(fds: &[Fd], objects: &[AttrSet], have: ObjSet, members: AttrSet, object: u8) -> bool
    requires in_range { object < length objects.now }
    requires members { IsAttributesOf objects.now have members }
    ensures { IsTrue result ↔ Adjoinable fds.now objects.now have object }
{
    if have.contains(object) {
        return false;
    }
    hang_together(fds, objects, members, objects[object as usize])
}
