//! How a closure comes about, one dependency after another.
ghost use Rattle.std.specs.Prelude.{◌≡◌, ◌≤◌, IfOk, length, position};
ghost use Rattle.su_fd.specs.Derivation.{adds, IsDerivation};

use crate::dependencies::Fd;
use std::alloc::Global;
use su_base::{AttrSet, List, NoMemory};

/// The place of the first dependency that adds to `reached`.
fn first_adding(fds: &[Fd], reached: AttrSet) -> Option<usize>
    ensures { result ≡ position (λ f. adds f reached) fds.now }
{
    fds.iter()
        .position(|fd| fd.left.within(reached) && !fd.right.within(reached))
}

/// The numbers of the dependencies that lead from `start` to its closure, in the order in which
/// they are used: again and again the first one, in declaration order, whose left side is within
/// the set so far and whose right side isn't. No dependency is used twice.
pub fn derivation(alloc: Global, fds: &[Fd], start: AttrSet) -> Result<List<u16>, NoMemory>
    requires { length fds.now ≤ 256 }
    ensures { IfOk result (IsDerivation fds.now start) }
{
    let mut used = List::new(alloc);
    let mut reached = start;
    while let Some(i) = first_adding(fds, reached) {
        used.push(i as u16)?;
        reached = reached.union(fds[i].right);
    }
    Ok(used)
}
