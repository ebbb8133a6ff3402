//! What each key of an object has.
ghost use Rattle.std.specs.Prelude.{◌≡◌, ◌<◌, ◌↔◌, IsTrue, IfOk};
ghost use Rattle.std.specs.FinSet.{contains, difference, insert, empty};
ghost use Rattle.su_base.specs.Lists.{AreExactly};
ghost use Rattle.su_schema.specs.SetMembers.{numbers_in};
ghost use Rattle.su_advise.specs.Keys.{IsNeeded, AreNeeded};
ghost use Rattle.su_advise.specs.inside.Extras.{AreLow, AreRest};

use std::alloc::Global;
use su_base::{AttrSet, List, NoMemory};
use su_fd::{Fd, closure};

/// The set without the attribute.
pub(crate) fn leave_out(set: AttrSet, a: u8) -> AttrSet
    requires { a < 128 }
    ensures { result ≡ difference set (insert empty a) }
{
    set.minus(AttrSet::empty().insert(a))
}

/// Whether the attribute is the object's and its others don't determine it.
fn is_needed(fds: &[Fd], object: AttrSet, a: u8) -> bool
    requires { a < 128 }
    ensures { IsTrue result ↔ IsNeeded fds.now object a }
{
    object.contains(a) && !closure(fds, leave_out(object, a)).contains(a)
}

/// The needed attributes of the object.
pub(crate) fn needed_of(fds: &[Fd], object: AttrSet) -> AttrSet
    requires { AreLow object }
    ensures { AreNeeded fds.now object result }
{
    let mut found = AttrSet::empty();
    for a in 0..128u8 {
        if is_needed(fds, object, a) {
            found = found.insert(a);
        }
    }
    found
}

/// The attributes of the object that the needed ones don't determine.
pub(crate) fn free_of(fds: &[Fd], object: AttrSet, needed: AttrSet) -> AttrSet
    ensures { AreRest fds.now object needed result }
{
    object.minus(closure(fds, needed))
}

/// The members of the set, ascending.
pub(crate) fn members(alloc: Global, set: AttrSet) -> Result<List<u8>, NoMemory>
    ensures list { IfOk result (λ list. list ≡ numbers_in set 128) }
    ensures exactly { IfOk result (AreExactly (λ a. (a < 128) × IsTrue (contains set a))) }
{
    let mut list = List::new(alloc);
    for a in 0..128u8 {
        list.push_if(set.contains(a), a)?;
    }
    Ok(list)
}
