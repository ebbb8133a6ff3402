//! Whether two tableaux are equivalent, by su_map.
ghost use Rattle.std.specs.Prelude.{◌≡◌, ◌<◌, ◌↔◌, IsTrue, IfOk, length};
ghost use Rattle.su_tableau.specs.Equivalent.{IsEquivalent, IsWithin};
ghost use Rattle.su_tableau.specs.Kinds.{Kinds, IsTyped};

use std::alloc::Global;
use std::marker::Brand;
use std::sync::ledger::{Blank, Ledger};
use su_base::{NoMemory, Steps};
use su_map::laws::mappings_are_containment;
use su_map::{Room, exists};
use su_tableau::{Tableau, full};

/// Whether each answer of `t` is one of `s`: whether `s` maps into `t`. The steps are counted in a ledger.
fn is_within<L: Ledger>(
    alloc: Global,
    t: &Tableau,
    s: &Tableau,
    blank: Blank,
) -> Result<bool, NoMemory>
    requires width { t.now.width ≡ s.now.width }
    requires heads { length t.now.head ≡ length s.now.head }
    requires name { blank.name ≡ L.name }
    requires parts { blank.parts ≡ L.parts }
    requires some { 0 < blank.parts }
    ensures { IfOk result (λ yes. (kinds : Kinds) → IsTyped kinds t.now → IsTyped kinds s.now → IsTrue yes ↔ IsWithin kinds t.now s.now) }
{
    mappings_are_containment();
    s.keeps_its_rules();
    t.keeps_its_rules();
    let mut room = Room::new(alloc, s.row_count(), s.symbols())?;
    let mut steps = Steps::<L>::new(blank);
    let (all, into) = (full(s.row_count()), full(t.row_count()));
    Ok(exists(&mut room, s, all, t, into, &mut steps))
}

/// Whether the two have the same answers over every universal relation of any kinds that fit both.
pub fn are_equivalent(alloc: Global, t: &Tableau, s: &Tableau) -> Result<bool, NoMemory>
    requires width { t.now.width ≡ s.now.width }
    requires heads { length t.now.head ≡ length s.now.head }
    ensures { IfOk result (λ yes. (kinds : Kinds) → IsTyped kinds t.now → IsTyped kinds s.now → IsTrue yes ↔ IsEquivalent kinds t.now s.now) }
{
    let one = is_within::<Brand>(alloc, t, s, Blank::new(1))?;
    let other = is_within::<Brand>(alloc, s, t, Blank::new(1))?;
    Ok(one && other)
}
