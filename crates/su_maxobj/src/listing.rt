//! Which grown sets are maximal objects of their own.
ghost use Rattle.std.specs.Prelude.{ℕ, ◌≡◌, ◌<◌, ◌≤◌, ◌++◌, IfOk, length};
ghost use Rattle.std.specs.List.{list_any};
ghost use Rattle.std.specs.FinSet as set;
ghost use Rattle.su_base.specs.Sets.{set_at};
ghost use Rattle.su_maxobj.specs.Growth.{IsGrown};
ghost use Rattle.su_maxobj.specs.MaximalObjects.{is_proper_subset, is_listed as listed, computed};

use crate::growing::grown_from;
use crate::ordering::ordered;
use std::alloc::Global;
use su_base::{AttrSet, List, NoMemory, ObjSet};
use su_fd::Fd;

fn is_within_any(own: ObjSet, sets: &[ObjSet]) -> bool
    ensures { result ≡ list_any (set.is_subset own) sets.now }
{
    sets.iter().any(|other| own.within(*other))
}

fn is_properly_within_any(own: ObjSet, sets: &[ObjSet]) -> bool
    ensures { result ≡ list_any (is_proper_subset own) sets.now }
{
    sets.iter()
        .any(|other| own.within(*other) && !other.within(own))
}

/// Whether what the seed grows to is a maximal object that no other stands for.
fn is_listed(declared: &[ObjSet], grown: &[ObjSet], seed: usize) -> bool
    requires { seed < length grown.now }
    ensures { result ≡ listed declared.now grown.now seed }
{
    let own = grown[seed];
    !is_within_any(own, declared)
        && !is_within_any(own, &grown[..seed])
        && !is_properly_within_any(own, grown)
}

/// What each object grows to.
fn grown_by(alloc: Global, fds: &[Fd], objects: &[AttrSet]) -> Result<List<ObjSet>, NoMemory>
    requires { length objects.now ≤ 64 }
    ensures seeds { IfOk result (λ grown. length grown ≡ length objects.now) }
    ensures each { IfOk result (λ grown. (seed : ℕ) → seed < length objects.now → IsGrown fds.now objects.now seed (set_at grown seed)) }
{
    let mut grown = List::new(alloc);
    for seed in 0..objects.len() as u8 {
        grown.push(grown_from(fds, objects, seed))?;
    }
    Ok(grown)
}

/// What each object grows to. The dependencies are brought into a good order first, since each
/// growth takes a closure for each object that it tries.
pub fn grown_sets(alloc: Global, fds: &[Fd], objects: &[AttrSet]) -> Result<List<ObjSet>, NoMemory>
    requires { length objects.now ≤ 64 }
    ensures seeds { IfOk result (λ grown. length grown ≡ length objects.now) }
    ensures each { IfOk result (λ grown. (seed : ℕ) → seed < length objects.now → IsGrown fds.now objects.now seed (set_at grown seed)) }
{
    let fds = ordered(alloc, fds)?;
    grown_by(alloc, fds.as_slice(), objects)
}

/// The declared sets, then the grown ones that are listed.
pub fn listed_sets(
    alloc: Global,
    declared: &[ObjSet],
    grown: &[ObjSet],
) -> Result<List<ObjSet>, NoMemory>
    ensures { IfOk result (λ sets. sets ≡ declared.now ++ computed declared.now grown.now) }
{
    let mut sets = List::from_vec(Vec::from_slice(alloc, declared)?);
    for seed in 0..grown.len() {
        if is_listed(declared, grown, seed) {
            sets.push(grown[seed])?;
        }
    }
    Ok(sets)
}
