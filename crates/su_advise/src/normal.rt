//! Dependencies that break Boyce and Codd's form.
ghost use Rattle.std.specs.Prelude.{◌≡◌, ◌<◌, ◌≤◌, ◌↔◌, IsTrue, IfOk, length};
ghost use Rattle.std.specs.FinSet.{is_subset};
ghost use Rattle.su_base.specs.Lists.{AreExactly};
ghost use Rattle.su_fd.specs.Closure.{Determines};
ghost use Rattle.su_advise.specs.Lying.{lies_in as lies, lying_in as lying};
ghost use Rattle.su_advise.specs.NormalForm.{Breaks, IsBreaking};

use crate::lying::{lies_in, lying_in};
use std::alloc::Global;
use su_base::{AttrSet, List, NoMemory};
use su_fd::{Fd, determines};

/// Whether the dependency lies in the object, isn't trivial, and doesn't determine the object by those
/// of `own`, which lie in it.
fn breaks(own: &[Fd], object: AttrSet, fd: &Fd) -> bool
    ensures { IsTrue result ↔ IsTrue (lies object fd.now) × ¬ IsTrue (is_subset fd.now.right fd.now.left) × ¬ Determines own.now fd.now.left object }
{
    lies_in(object, fd) && !fd.right.within(fd.left) && !determines(own, fd.left, object)
}

/// The dependencies that break Boyce and Codd's form in the object, by number.
pub fn breaking(alloc: Global, fds: &[Fd], object: AttrSet) -> Result<List<u16>, NoMemory>
    requires { length fds.now ≤ 256 }
    ensures { IfOk result (AreExactly (IsBreaking fds.now object)) }
{
    let own = lying_in(alloc, fds, object)?;
    let mut found = List::new(alloc);
    for i in 0..fds.len() {
        found.push_if(breaks(own.as_slice(), object, &fds[i]), i as u16)?;
    }
    Ok(found)
}
