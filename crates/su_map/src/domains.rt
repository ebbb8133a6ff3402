//! Domains: the targets that are left for each row.
ghost use Rattle.std.specs.Prelude.{◌≡◌, ◌<◌, ◌≤◌, ◌+◌, ◌*◌, ◌⊎◌, ℕ, IsTrue, IsFalse, length, get_or, IfSome, None};
ghost use Rattle.std.specs.Int.{bit_at};
ghost use Rattle.su_map.specs.inside.Netted.{HasRoom, agree_of};
ghost use Rattle.su_map.specs.inside.Choices.{IsChoice, Shrinks, IsAssigned};
ghost use Rattle.su_map.specs.inside.SearchEnds.{KeepsChoices};

use crate::bits::{either, lowest};
use crate::nets::Net;
use su_tableau::{bit, both, with, without};

/// The set, with the row if its domain is not what it was.
fn noted(set: u64, row: usize, before: u64, left: u64) -> u64
    requires { row < 64 }
    ensures { (q : ℕ) → bit_at result q ≡ 1 → (bit_at set q ≡ 1) ⊎ (q ≡ row) }
{
    if left == before {
        return set;
    }
    with(set, row)
}

/// Writes the domains that are left where the row goes to the target. The rows whose domains may have
/// shrunk; none where a masked row is left without a target.
fn assign(
    net: &Net,
    mask: u64,
    row: usize,
    target: usize,
    domains: &[u64],
    next: &mut [u64],
) -> Option<u64>
    requires room { HasRoom (length domains.now) net.now }
    requires rows { length domains.now ≤ 64 }
    requires mask { (q : ℕ) → bit_at mask q ≡ 1 → q < length domains.now }
    requires row { bit_at mask row ≡ 1 }
    requires target { target < 64 }
    requires in_domain { bit_at (get_or domains.now row 0) target ≡ 1 }
    requires next { length next.old ≡ length domains.now }
    ensures left { IfSome result (λ changed. IsAssigned net.now (length domains.now) mask row target domains.now next.new) }
    ensures changed { IfSome result (λ changed. (q : ℕ) → bit_at changed q ≡ 1 → bit_at mask q ≡ 1) }
    ensures none { result ≡ None → (choice : ℕ → ℕ) → IsChoice net.now (length domains.now) mask domains.now choice → choice row ≡ target → ⊥ }
{
    next.copy_from_slice(domains);
    let left = bit(target);
    next[row] = left;
    let mut changed = noted(0, row, domains[row], left);
    let mut rest = without(both(mask, net.near(row)), row);
    while rest != 0 {
        let q = lowest(rest);
        let fewer = without(rest, q);
        rest = fewer;
        let before = next[q];
        let left = both(before, net.agree(row, q, target));
        if left == 0 {
            return None;
        }
        next[q] = left;
        changed = noted(changed, q, before, left);
    }
    Some(changed)
}

/// Of the wanted targets of the other row those that agree with some target in the row's domain.
fn supported(net: &Net, row: usize, other: usize, domain: u64, wanted: u64) -> u64
    requires room { HasRoom (row + 1) net.now }
    requires other { other < 64 }
    ensures wanted { (x : ℕ) → bit_at result x ≡ 1 → bit_at wanted x ≡ 1 }
    ensures supported { (p x : ℕ) → bit_at domain p ≡ 1 → bit_at wanted x ≡ 1 → bit_at (agree_of net.now row other p) x ≡ 1 → bit_at result x ≡ 1 }
{
    let mut left = 0;
    let mut rest = domain;
    for _ in 0..64 {
        if rest == 0 {
            return left;
        }
        if left == wanted {
            return left;
        }
        let p = lowest(rest);
        left = either(left, both(wanted, net.agree(row, other, p)));
        rest = without(rest, p);
    }
    wanted
}

/// Takes from the domains the targets that agree with none in the row's domain. The rows whose
/// domains shrank; none where a row is left without a target.
fn revise(net: &Net, mask: u64, row: usize, domains: &mut [u64]) -> Option<u64>
    requires room { HasRoom (length domains.old) net.now }
    requires rows { length domains.old ≤ 64 }
    requires mask { (q : ℕ) → bit_at mask q ≡ 1 → q < length domains.old }
    requires row { bit_at mask row ≡ 1 }
    ensures shrinks { Shrinks (length domains.old) domains.old domains.new }
    ensures alive { (q : ℕ) → 0 < get_or domains.old q 0 → 0 < get_or domains.new q 0 }
    ensures all { KeepsChoices net.now (length domains.old) mask domains.old domains.new }
    ensures none { result ≡ None → (choice : ℕ → ℕ) → IsChoice net.now (length domains.old) mask domains.old choice → ⊥ }
    ensures within { IfSome result (λ shrunk. (q : ℕ) → bit_at shrunk q ≡ 1 → bit_at mask q ≡ 1) }
{
    let mut shrunk = 0;
    let mut rest = without(both(mask, net.near(row)), row);
    for _ in 0..64 {
        if rest == 0 {
            break;
        }
        let q = lowest(rest);
        let fewer = without(rest, q);
        rest = fewer;
        let before = domains[q];
        let left = supported(net, row, q, domains[row], before);
        if left == 0 {
            return None;
        }
        domains[q] = left;
        if left != before {
            shrunk = with(shrunk, q);
        }
    }
    Some(shrunk)
}

/// Takes from the domains what agrees with nothing in some other row's domain, beginning with the
/// rows that changed; false where no choice is left. How far it goes is a matter of speed alone.
pub fn propagate(net: &Net, mask: u64, start: u64, domains: &mut [u64]) -> bool
    requires room { HasRoom (length domains.old) net.now }
    requires rows { length domains.old ≤ 64 }
    requires mask { (q : ℕ) → bit_at mask q ≡ 1 → q < length domains.old }
    requires start { (q : ℕ) → bit_at start q ≡ 1 → bit_at mask q ≡ 1 }
    ensures shrinks { Shrinks (length domains.old) domains.old domains.new }
    ensures alive { (q : ℕ) → 0 < get_or domains.old q 0 → 0 < get_or domains.new q 0 }
    ensures all { KeepsChoices net.now (length domains.old) mask domains.old domains.new }
    ensures none { IsFalse result → (choice : ℕ → ℕ) → IsChoice net.now (length domains.old) mask domains.old choice → ⊥ }
{
    let mut changed = start;
    for _ in 0..4160 {
        if changed == 0 {
            return true;
        }
        let row = lowest(changed);
        match revise(net, mask, row, domains) {
            Some(shrunk) => changed = either(without(changed, row), shrunk),
            None => return false,
        }
    }
    true
}

/// The domains where the row goes to the target, after `assign` and `propagate`; false where no
/// choice sends it there.
pub fn descend(
    net: &Net,
    mask: u64,
    row: usize,
    target: usize,
    domains: &[u64],
    next: &mut [u64],
) -> bool
    requires room { HasRoom (length domains.now) net.now }
    requires rows { length domains.now ≤ 64 }
    requires mask { (q : ℕ) → bit_at mask q ≡ 1 → q < length domains.now }
    requires row { bit_at mask row ≡ 1 }
    requires target { target < 64 }
    requires in_domain { bit_at (get_or domains.now row 0) target ≡ 1 }
    requires next { length next.old ≡ length domains.now }
    ensures left { IsTrue result → IsAssigned net.now (length domains.now) mask row target domains.now next.new }
    ensures none { IsFalse result → (choice : ℕ → ℕ) → IsChoice net.now (length domains.now) mask domains.now choice → choice row ≡ target → ⊥ }
{
    match assign(net, mask, row, target, domains, next) {
        Some(changed) => propagate(net, mask, changed, next),
        None => false,
    }
}
