//! Sets of attributes from their numbers.
ghost use Rattle.std.specs.Prelude.{◌<◌, ℕ, IsTrue};
ghost use Rattle.std.specs.FinSet.{contains};
ghost use Rattle.su_samples.specs.Sets.{IsMadeOf};

use su_base::AttrSet;

/// The set of the numbers; one that no attribute can have is left out.
pub fn set_of(members: &[u8]) -> AttrSet
    ensures { IsMadeOf members.now result }
{
    let mut all = AttrSet::empty();
    for member in members {
        if *member < 128 {
            all = all.insert(*member);
        }
    }
    all
}

/// Whether each member is below the width: it takes these out, and nothing is left.
pub fn is_below(set: AttrSet, width: u8) -> bool
    ensures { IsTrue result → (a : ℕ) → IsTrue (contains set a) → a < width }
{
    let mut rest = set;
    for a in 0..width.min(128) {
        rest = rest.minus(AttrSet::empty().insert(a));
    }
    rest.is_empty()
}
