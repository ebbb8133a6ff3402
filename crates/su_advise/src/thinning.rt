//! Attributes without which a cycle is none.
ghost use Rattle.std.specs.Prelude.{◌≡◌, ◌<◌, ◌≤◌, ◌↔◌, ℕ, IsTrue, IfOk, MatchOption, length};
ghost use Rattle.std.specs.FinSet.{contains, is_subset};
ghost use Rattle.std.specs.List.{list_any};
ghost use Rattle.su_reduce.specs.Ears.{AreAcyclic};
ghost use Rattle.su_advise.specs.Acyclic.{edges_of as edges};
ghost use Rattle.su_advise.specs.Breakers.{thinned as thinned_by, AreLeastBreakers, AreMany};

use crate::doubling::subsets;
use crate::needing::members;
use crate::taking::ear_order;
use std::alloc::Global;
use su_base::{AttrSet, List, NoMemory, ObjSet};

/// How many attributes may come into question: 4,096 sets are tried then.
const MOST_MEETING: usize = 12;

/// The objects without these attributes.
fn thinned(alloc: Global, objects: &[AttrSet], set: AttrSet) -> Result<List<AttrSet>, NoMemory>
    ensures { IfOk result (λ list. list ≡ thinned_by objects.now set) }
{
    let mut list = List::new(alloc);
    for object in objects {
        list.push(object.minus(set))?;
    }
    Ok(list)
}

/// Whether the objects of the set are acyclic without these attributes.
fn is_acyclic_without(
    alloc: Global,
    objects: &[AttrSet],
    members: ObjSet,
    set: AttrSet,
) -> Result<bool, NoMemory>
    requires { length objects.now ≤ 64 }
    ensures { IfOk result (λ b. IsTrue b ↔ AreAcyclic (edges (thinned_by objects.now set) members)) }
{
    let fewer = thinned(alloc, objects, set)?;
    match ear_order(alloc, fewer.as_slice(), members)? {
        Some(_) => Ok(true),
        None => Ok(false),
    }
}

/// Whether one of the sets is within this one.
fn has_one_within(sets: &[AttrSet], set: AttrSet) -> bool
    ensures { result ≡ list_any (λ s. is_subset s set) sets.now }
{
    sets.iter().any(|other| other.within(set))
}

/// The least sets of some of these attributes without which the objects of the set are acyclic, each once.
/// None where these attributes are more than 12. Each set is tried behind all its parts.
pub fn least_breakers(
    alloc: Global,
    objects: &[AttrSet],
    set: ObjSet,
    among: AttrSet,
) -> Result<Option<List<AttrSet>>, NoMemory>
    requires few { length objects.now ≤ 64 }
    requires low { (a : ℕ) → IsTrue (contains among a) → a < 128 }
    ensures { IfOk result (λ found. MatchOption found (AreMany among) (AreLeastBreakers objects.now set among)) }
{
    let numbers = members(alloc, among)?;
    if numbers.len() > MOST_MEETING {
        return Ok(None);
    }
    let sets = subsets(alloc, numbers.as_slice())?;
    let mut found = List::new(alloc);
    for tried in sets.as_slice() {
        if has_one_within(found.as_slice(), *tried) {
            continue;
        }
        found.push_if(is_acyclic_without(alloc, objects, set, *tried)?, *tried)?;
    }
    Ok(Some(found))
}
