//! Dependencies, and attributes of their left sides, that say nothing new.
ghost use Rattle.std.specs.Prelude.{◌≡◌, ◌<◌, ◌≤◌, ◌↔◌, ◌⊎◌, false, IsTrue, IfOk, length};
ghost use Rattle.su_base.specs.Lists.{AreExactly};
ghost use Rattle.su_advise.specs.Lying.{is_kept as kept_at, lying_in_any as lying};
ghost use Rattle.std.specs.FinSet.{contains, difference, insert, empty};
ghost use Rattle.su_fd.specs.Closure.{Determines};
ghost use Rattle.su_advise.specs.Redundant.{others as others_of, Follows, IsRedundant, IsDroppable, IsSpare};

use crate::lying::{is_kept, lying_in_any};
use std::alloc::Global;
use su_base::{AttrSet, List, NoMemory};
use su_fd::{Fd, determines};

/// The dependencies without the one with this number.
fn others(alloc: Global, fds: &[Fd], i: usize) -> Result<List<Fd>, NoMemory>
    requires { i < length fds.now }
    ensures { IfOk result (λ list. list ≡ others_of fds.now i) }
{
    let mut list = Vec::from_slice(alloc, &fds[..i])?;
    list.extend_from_slice(&fds[i + 1..])?;
    Ok(List::from_vec(list))
}

/// Whether the dependency with this number follows from these.
fn follows(fds: &[Fd], from: &[Fd], i: usize) -> bool
    requires { i < length fds.now }
    ensures { IsTrue result ↔ Follows fds.now from.now i }
{
    let fd = &fds[i];
    determines(from, fd.left, fd.right)
}

/// Whether the dependency with this number follows from the others.
fn is_redundant(alloc: Global, fds: &[Fd], i: usize) -> Result<bool, NoMemory>
    requires { i < length fds.now }
    ensures { IfOk result (λ b. IsTrue b ↔ Follows fds.now (others_of fds.now i) i) }
{
    let rest = others(alloc, fds, i)?;
    Ok(follows(fds, rest.as_slice(), i))
}

/// The dependencies that follow from the others, by number; each is judged alone.
pub fn redundant(alloc: Global, fds: &[Fd]) -> Result<List<u16>, NoMemory>
    requires { length fds.now ≤ 256 }
    ensures { IfOk result (AreExactly (IsRedundant fds.now)) }
{
    let mut found = List::new(alloc);
    for i in 0..fds.len() {
        found.push_if(is_redundant(alloc, fds, i)?, i as u16)?;
    }
    Ok(found)
}

/// Whether the dependency with this number follows from the rest, and lies in no object or follows from
/// those of the rest that do.
fn may_go(fds: &[Fd], objects: &[AttrSet], rest: &[Fd], kept: &[Fd], i: usize) -> bool
    requires { i < length fds.now }
    ensures { IsTrue result ↔ Follows fds.now rest.now i × ((kept_at fds.now objects.now i ≡ false) ⊎ Follows fds.now kept.now i) }
{
    follows(fds, rest, i) && (!is_kept(fds, objects, i) || follows(fds, kept, i))
}

/// Whether the dependency with this number may be dropped.
fn is_droppable(alloc: Global, fds: &[Fd], objects: &[AttrSet], i: usize) -> Result<bool, NoMemory>
    requires { i < length fds.now }
    ensures { IfOk result (λ b. IsTrue b ↔ Follows fds.now (others_of fds.now i) i × ((kept_at fds.now objects.now i ≡ false) ⊎ Follows fds.now (lying objects.now (others_of fds.now i)) i)) }
{
    let rest = others(alloc, fds, i)?;
    let kept = lying_in_any(alloc, rest.as_slice(), objects)?;
    Ok(may_go(fds, objects, rest.as_slice(), kept.as_slice(), i))
}

/// Of the dependencies that follow from the others those that may be dropped: what is kept of stored
/// rows stays.
pub fn droppable(alloc: Global, fds: &[Fd], objects: &[AttrSet]) -> Result<List<u16>, NoMemory>
    requires { length fds.now ≤ 256 }
    ensures { IfOk result (AreExactly (IsDroppable fds.now objects.now)) }
{
    let mut found = List::new(alloc);
    for i in 0..fds.len() {
        found.push_if(is_droppable(alloc, fds, objects, i)?, i as u16)?;
    }
    Ok(found)
}

/// Whether the dependency still follows with that attribute left out on the left.
fn is_spare(fds: &[Fd], fd: &Fd, a: u8) -> bool
    requires { a < 128 }
    ensures { IsTrue result ↔ IsTrue (contains fd.now.left a) × Determines fds.now (difference fd.now.left (insert empty a)) fd.now.right }
{
    let fewer = fd.left.minus(AttrSet::empty().insert(a));
    fd.left.contains(a) && determines(fds, fewer, fd.right)
}

/// The attributes of the dependency's left side without which it still follows; each is judged alone.
pub fn spare_attributes(alloc: Global, fds: &[Fd], fd: &Fd) -> Result<List<u8>, NoMemory>
    ensures { IfOk result (AreExactly (IsSpare fds.now fd.now)) }
{
    let mut found = List::new(alloc);
    for a in 0..128u8 {
        found.push_if(is_spare(fds, fd, a), a)?;
    }
    Ok(found)
}
