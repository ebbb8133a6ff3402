//! Closures and keys of a relation, by su_fd.
ghost use Rattle.std.specs.Prelude.{◌<◌, ◌≤◌, ◌↔◌, ℕ, IsTrue};
ghost use Rattle.std.specs.FinSet.{contains};
ghost use Rattle.su_fd.specs.Closure.{InClosure};
ghost use Rattle.library_keys.specs.Keys.{IsKey};

use su_base::AttrSet;
use su_fd::{Fd, closure, determines};

/// Those of the relation's attributes that `left` determines.
pub fn dependent_on(fds: &[Fd], all: AttrSet, left: AttrSet) -> AttrSet
    ensures { (a : ℕ) → IsTrue (contains result a) ↔ IsTrue (contains all a) × InClosure fds.now left a }
{
    closure(fds, left).meet(all)
}

/// A key of the relation whose attributes these are, all below `width`: each attribute is left out in
/// turn where the others determine all without it.
pub fn key_of(fds: &[Fd], all: AttrSet, width: u8) -> AttrSet
    requires few { width ≤ 128 }
    requires below { (a : ℕ) → IsTrue (contains all a) → a < width }
    ensures { IsKey fds.now all result }
{
    let mut key = all;
    for a in 0..width {
        let fewer = key.minus(AttrSet::empty().insert(a));
        if determines(fds, fewer, all) {
            key = fewer;
        }
    }
    key
}
