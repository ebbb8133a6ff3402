//! The closure of a set of attributes.
ghost use Rattle.std.specs.Prelude.{◌≡◌, ◌↔◌, ◌⊎◌, IsTrue, Any, false};
ghost use Rattle.std.specs.Ordering.{nat_cmp};
ghost use Rattle.std.specs.FinSet as set;
ghost use Rattle.su_fd.specs.Closure.{IsClosed, IsClosureOf, Determines};

use crate::dependencies::Fd;
use su_base::AttrSet;

/// One pass: each dependency in turn adds its right side where its left side is reached.
fn swept(fds: &[Fd], start: AttrSet) -> AttrSet
    ensures grown { IsTrue (set.is_subset start result) }
    ensures least { (s : set.FinSet nat_cmp) → IsClosed fds.now s → IsTrue (set.is_subset start s) → IsTrue (set.is_subset result s) }
    ensures settled { IsTrue (set.is_subset result start) → IsClosed fds.now start }
    ensures progress { IsTrue (set.is_subset result start) ⊎ Any (λ f. (set.is_subset f.right start ≡ false) × IsTrue (set.is_subset f.right result)) fds.now }
{
    let mut reached = start;
    for fd in fds {
        if fd.left.within(reached) {
            reached = reached.union(fd.right);
        }
    }
    reached
}

/// All that `start` determines: the least set that includes `start` and is closed under every
/// dependency.
///
/// Takes no memory. Each pass but the last adds a right side, and a pass is a few operations on
/// machine words for each dependency.
pub fn closure(fds: &[Fd], start: AttrSet) -> AttrSet
    ensures { IsClosureOf fds.now start result }
{
    let mut reached = start;
    loop {
        let wider = swept(fds, reached);
        if wider.within(reached) {
            return reached;
        }
        reached = wider;
    }
}

/// Whether `left` determines `right`: whether rows that agree on `left` have to agree on `right`.
/// Takes no memory and the time of one closure.
pub fn determines(fds: &[Fd], left: AttrSet, right: AttrSet) -> bool
    ensures { IsTrue result ↔ Determines fds.now left right }
{
    right.within(closure(fds, left))
}
