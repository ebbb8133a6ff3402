//! Pairs of attributes and the maximal objects that cover them.
ghost use Rattle.std.specs.Prelude.{◌≡◌, ◌<◌, ◌≤◌, ◌↔◌, true, false, IsTrue, IfOk, length};
ghost use Rattle.std.specs.List.{list_any};
ghost use Rattle.std.specs.FinSet.{contains};
ghost use Rattle.su_base.specs.Lists.{AreExactly};
ghost use Rattle.su_advise.specs.Covering.{has_both as has, IsCoverOf, IsUncovered};

use std::alloc::Global;
use su_base::{AttrSet, List, NoMemory};

/// Whether the set has both attributes.
fn has_both(a: u8, b: u8, cover: AttrSet) -> bool
    ensures { result ≡ has a b cover }
{
    cover.contains(a) && cover.contains(b)
}

/// Whether one of the sets has both attributes.
fn is_covered(covers: &[AttrSet], a: u8, b: u8) -> bool
    ensures { result ≡ list_any (has a b) covers.now }
{
    covers.iter().any(|cover| has_both(a, b, *cover))
}

/// The sets that have both attributes, by number: a query of one variable over these is a union of so many.
pub fn covers_of(alloc: Global, covers: &[AttrSet], a: u8, b: u8) -> Result<List<u8>, NoMemory>
    requires { length covers.now ≤ 128 }
    ensures { IfOk result (AreExactly (IsCoverOf covers.now a b)) }
{
    let mut found = List::new(alloc);
    for k in 0..covers.len() {
        found.push_if(has_both(a, b, covers[k]), k as u8)?;
    }
    Ok(found)
}

/// Whether `b` is a later used attribute that no set has together with `a`.
fn is_uncovered(used: AttrSet, covers: &[AttrSet], a: u8, b: u8) -> bool
    ensures { IsTrue result ↔ (a < b) × (contains used b ≡ true) × (list_any (has a b) covers.now ≡ false) }
{
    a < b && used.contains(b) && !is_covered(covers, a, b)
}

/// The later ones of the used attributes that no set has together with the attribute: a query of one
/// variable over both is refused.
pub fn uncovered_with(
    alloc: Global,
    used: AttrSet,
    covers: &[AttrSet],
    a: u8,
) -> Result<List<u8>, NoMemory>
    ensures { IfOk result (AreExactly (IsUncovered used covers.now a)) }
{
    let mut found = List::new(alloc);
    for b in 0..128u8 {
        found.push_if(is_uncovered(used, covers, a, b), b)?;
    }
    Ok(found)
}
