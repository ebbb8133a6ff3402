//! All subsets of a set.
ghost use Rattle.std.specs.Prelude.{◌≡◌, ◌<◌, IfOk, OnOk, All};
ghost use Rattle.su_base.specs.Lists.{IsAscending};
ghost use Rattle.su_advise.specs.inside.Subsets.{AreSubsetsOf, with_each};

use std::alloc::Global;
use su_base::{AttrSet, List, NoMemory};

/// Adds each of the sets with the attribute at the end.
fn double(sets: &mut List<AttrSet>, a: u8) -> Result<(), NoMemory>
    requires { a < 128 }
    ensures { OnOk result (sets.new ≡ with_each sets.old a) }
{
    for i in 0..sets.len() {
        let more = sets.as_slice()[i].insert(a);
        sets.push(more)?;
    }
    Ok(())
}

/// All sets of some of these attributes, each once: 2 to the power of how many they are.
pub(crate) fn subsets(alloc: Global, members: &[u8]) -> Result<List<AttrSet>, NoMemory>
    requires below { All (λ a. a < 128) members.now }
    requires ascend { IsAscending members.now }
    ensures { IfOk result (AreSubsetsOf members.now) }
{
    let mut sets = List::new(alloc);
    sets.push(AttrSet::empty())?;
    for a in members {
        double(&mut sets, *a)?;
    }
    Ok(sets)
}
