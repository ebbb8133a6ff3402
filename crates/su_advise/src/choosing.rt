//! The keys of an object.
ghost use Rattle.std.specs.Prelude.{◌≡◌, ◌<◌, ◌↔◌, ℕ, IsTrue, IfOk, MatchOption};
ghost use Rattle.std.specs.FinSet.{contains, is_subset, difference, insert, empty};
ghost use Rattle.su_fd.specs.Closure.{Determines};
ghost use Rattle.su_advise.specs.Keys.{IsKey, AreKeys, AreNeeded, HasManyFree};
ghost use Rattle.su_advise.specs.inside.Extras.{AreLow, AreExtras};

use crate::doubling::subsets;
use crate::needing::{free_of, leave_out, members, needed_of};
use std::alloc::Global;
use su_base::{AttrSet, List, NoMemory};
use su_fd::{Fd, determines};

/// How many attributes may be free: 4,096 sets are tried then.
const MOST_FREE: usize = 12;

/// Whether no attribute of the set can be left out.
fn is_least(fds: &[Fd], object: AttrSet, set: AttrSet) -> bool
    requires { (a : ℕ) → IsTrue (contains set a) → a < 128 }
    ensures { IsTrue result ↔ ((a : ℕ) → IsTrue (contains set a) → ¬ Determines fds.now (difference set (insert empty a)) object) }
{
    for a in 0..128u8 {
        if set.contains(a) && determines(fds, leave_out(set, a), object) {
            return false;
        }
    }
    true
}

/// Whether the set is of the object's attributes and determines them all.
fn is_enough(fds: &[Fd], object: AttrSet, set: AttrSet) -> bool
    ensures { IsTrue result ↔ IsTrue (is_subset set object) × Determines fds.now set object }
{
    set.within(object) && determines(fds, set, object)
}

/// Whether the set is a key of the object.
fn is_key(fds: &[Fd], object: AttrSet, set: AttrSet) -> bool
    requires { (a : ℕ) → IsTrue (contains object a) → a < 128 }
    ensures { IsTrue result ↔ IsKey fds.now object set }
{
    is_enough(fds, object, set) && is_least(fds, object, set)
}

/// The keys that are the needed attributes and one of these sets.
fn keys_among(
    alloc: Global,
    fds: &[Fd],
    object: AttrSet,
    needed: AttrSet,
    extras: &[AttrSet],
) -> Result<List<AttrSet>, NoMemory>
    requires low { AreLow object }
    requires needed { AreNeeded fds.now object needed }
    requires extras { AreExtras fds.now object needed extras.now }
    ensures { IfOk result (AreKeys fds.now object) }
{
    let mut keys = List::new(alloc);
    for extra in extras {
        let set = needed.union(*extra);
        keys.push_if(is_key(fds, object, set), set)?;
    }
    Ok(keys)
}

/// The keys of the object with these attributes, each once. None where more than 12 of its attributes are
/// free: neither does each key have them, nor do those determine them that each has.
pub fn keys(alloc: Global, fds: &[Fd], object: AttrSet) -> Result<Option<List<AttrSet>>, NoMemory>
    requires { (a : ℕ) → IsTrue (contains object a) → a < 128 }
    ensures { IfOk result (λ found. MatchOption found (HasManyFree fds.now object) (AreKeys fds.now object)) }
{
    let needed = needed_of(fds, object);
    let free = free_of(fds, object, needed);
    let numbers = members(alloc, free)?;
    if numbers.len() > MOST_FREE {
        return Ok(None);
    }
    let extras = subsets(alloc, numbers.as_slice())?;
    let keys = keys_among(alloc, fds, object, needed, extras.as_slice())?;
    Ok(Some(keys))
}
