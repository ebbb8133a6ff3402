//! The search.
ghost use Rattle.std.specs.Prelude.{◌≡◌, ◌≤◌, ◌<◌, ◌+◌, ◌*◌, ◌⊎◌, ℕ, Bool, IsTrue, IsFalse, length, get_or};
ghost use Rattle.std.specs.Int.{bit_at};
ghost use Rattle.su_map.specs.declared.search.Order.TheVariants.{Ascending};
ghost use Rattle.su_map.specs.Lists.{numbers_of};
ghost use Rattle.su_map.specs.inside.Netted.{HasRoom};
ghost use Rattle.su_map.specs.inside.Choices.{IsChoice, choice_of, Stands, IsInOrder, AreKept};
ghost use Rattle.su_map.specs.inside.SearchEnds.{IsFirstChoice, IsWithinTries};

use crate::aims::Aim;
use crate::bits::lowest;
use crate::domains::descend;
use std::sync::ledger::Ledger;
use su_base::Steps;
use su_tableau::{has, without};

/// Which row is next.
#[derive(Clone, Copy)]
pub enum Order {
    /// The rows in order, so that the first choice is found.
    Ascending,
    /// The row with the fewest targets.
    FewestFirst,
}

/// The row of the set with the fewest targets; the first that has one only.
fn fewest(todo: u64, domains: &[u64]) -> usize
    requires some { 0 < todo }
    requires within { (r : ℕ) → bit_at todo r ≡ 1 → r < length domains.now }
    requires rows { length domains.now ≤ 64 }
    ensures { bit_at todo result ≡ 1 }
{
    let mut row = lowest(todo);
    let mut least = domains[row].count_ones();
    for r in row..domains.len() {
        if least < 2 {
            return row;
        }
        let count = domains[r].count_ones();
        if has(todo, r) && count < least {
            row = r;
            least = count;
        }
    }
    row
}

fn next_row(order: Order, todo: u64, domains: &[u64]) -> usize
    requires some { 0 < todo }
    requires within { (r : ℕ) → bit_at todo r ≡ 1 → r < length domains.now }
    requires rows { length domains.now ≤ 64 }
    ensures member { bit_at todo result ≡ 1 }
    ensures least { order ≡ Ascending → (r : ℕ) → bit_at todo r ≡ 1 → result ≤ r }
{
    match order {
        Order::Ascending => lowest(todo),
        Order::FewestFirst => fewest(todo, domains),
    }
}

/// Whether some choice within the domains goes on from how the search stands; the choice is then
/// that choice, and in order the first of these.
pub fn search<L: Ledger>(
    aim: &Aim,
    todo: u64,
    domains: &[u64],
    room: &mut [u64],
    choice: &mut [u8],
    steps: &mut Steps<L>,
) -> bool
    requires room { HasRoom (length domains.now) aim.now.net.now }
    requires rows { length domains.now ≤ 64 }
    requires choice { length choice.old ≡ length domains.now }
    requires levels { length (numbers_of todo (length domains.now)) * length domains.now ≤ length room.old }
    requires mask { (q : ℕ) → bit_at aim.now.mask q ≡ 1 → q < length domains.now }
    requires stands { Stands aim.now.net.now (length domains.now) aim.now.mask todo domains.now (choice_of choice.old) }
    requires in_order { aim.now.order ≡ Ascending → IsInOrder (length domains.now) aim.now.mask todo }
    requires targets { (r x : ℕ) → r < length domains.now → bit_at aim.now.mask r ≡ 1 → bit_at (get_or domains.now r 0) x ≡ 1 → x < aim.now.net.now.targets }
    ensures kept { AreKept (length domains.now) aim.now.mask todo (choice_of choice.old) (choice_of choice.new) }
    ensures found { IsTrue result → IsChoice aim.now.net.now (length domains.now) aim.now.mask domains.now (choice_of choice.new) }
    ensures first { IsTrue result → aim.now.order ≡ Ascending → IsFirstChoice aim.now.net.now aim.now.mask domains.now (choice_of choice.new) }
    ensures none { IsFalse result → (other : ℕ → ℕ) → IsChoice aim.now.net.now (length domains.now) aim.now.mask domains.now other → ⊥ }
    ensures cost { IsWithinTries aim.now.order aim.now.net.now.targets domains.now aim.now.mask todo steps.old steps.new }
{
    if todo == 0 {
        return true;
    }
    let row = next_row(aim.order, todo, domains);
    let rest = without(todo, row);
    let mut left = domains[row];
    while left != 0 {
        let target = lowest(left);
        let later = without(left, target);
        left = later;
        steps.tick();
        choice[row] = target as u8;
        let (next, more) = room.split_at_mut(domains.len());
        if descend(aim.net, aim.mask, row, target, domains, next)
            && search(aim, rest, next, more, choice, steps)
        {
            return true;
        }
    }
    false
}
