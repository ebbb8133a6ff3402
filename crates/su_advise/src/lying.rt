//! Dependencies and the objects that they lie in.
ghost use Rattle.std.specs.Prelude.{◌≡◌, ◌<◌, ◌≤◌, IfOk, length};
ghost use Rattle.su_base.specs.Lists.{AreExactly};
ghost use Rattle.su_advise.specs.Lying.{lies_in as lies, lies_in_any as lies_in_one, lying_in as lying, lying_in_any as lying_in_one, is_kept as kept, IsKeptNowhere};

use std::alloc::Global;
use su_base::{AttrSet, List, NoMemory};
use su_fd::Fd;

/// Whether all attributes of the dependency are the object's.
pub(crate) fn lies_in(object: AttrSet, fd: &Fd) -> bool
    ensures { result ≡ lies object fd.now }
{
    fd.left.within(object) && fd.right.within(object)
}

/// Whether it lies in one of the objects.
fn lies_in_any(objects: &[AttrSet], fd: &Fd) -> bool
    ensures { result ≡ lies_in_one objects.now fd.now }
{
    objects.iter().any(|object| lies_in(*object, fd))
}

/// The dependencies that lie in the object, in their order.
pub fn lying_in(alloc: Global, fds: &[Fd], object: AttrSet) -> Result<List<Fd>, NoMemory>
    ensures { IfOk result (λ list. list ≡ lying object fds.now) }
{
    let mut list = List::new(alloc);
    for fd in fds {
        list.push_if(lies_in(object, fd), *fd)?;
    }
    Ok(list)
}

/// The dependencies that lie in one of the objects, in their order.
pub(crate) fn lying_in_any(
    alloc: Global,
    fds: &[Fd],
    objects: &[AttrSet],
) -> Result<List<Fd>, NoMemory>
    ensures { IfOk result (λ list. list ≡ lying_in_one objects.now fds.now) }
{
    let mut list = List::new(alloc);
    for fd in fds {
        list.push_if(lies_in_any(objects, fd), *fd)?;
    }
    Ok(list)
}

/// Whether the dependency with this number lies in one of the objects.
pub(crate) fn is_kept(fds: &[Fd], objects: &[AttrSet], i: usize) -> bool
    requires { i < length fds.now }
    ensures { result ≡ kept fds.now objects.now i }
{
    lies_in_any(objects, &fds[i])
}

/// The dependencies that lie in no object, by number: no stored row is ever refused by one of these.
pub fn kept_nowhere(alloc: Global, fds: &[Fd], objects: &[AttrSet]) -> Result<List<u16>, NoMemory>
    requires { length fds.now ≤ 256 }
    ensures { IfOk result (AreExactly (IsKeptNowhere fds.now objects.now)) }
{
    let mut found = List::new(alloc);
    for i in 0..fds.len() {
        found.push_if(!is_kept(fds, objects, i), i as u16)?;
    }
    Ok(found)
}
