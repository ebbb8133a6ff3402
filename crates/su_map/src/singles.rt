//! Rows with one target left, and what such a row leaves the rows that share a variable with it.
ghost use Rattle.std.specs.Prelude.{◌≡◌, ◌≤◌, ◌<◌, ℕ, IsTrue, IsFalse, IfSome, None, length, get_or};
ghost use Rattle.std.specs.Int.{bit_at};
ghost use Rattle.su_map.specs.inside.Targets.{AreSides};
ghost use Rattle.su_map.specs.inside.Sendings.{AreRows, IsSending, KeepsSendings, KeepsSendingsTo};

use crate::bits::lowest;
use crate::sides::Sides;
use crate::tables::{agreeing, fill_shared};
use su_tableau::{has, without};

/// The target in the domain, where it has just one.
fn one_target(domain: u64) -> Option<usize>
    ensures member { IfSome result (λ p. bit_at domain p ≡ 1) }
    ensures only { IfSome result (λ p. (x : ℕ) → bit_at domain x ≡ 1 → x ≡ p) }
{
    if domain == 0 {
        return None;
    }
    let target = lowest(domain);
    let others = without(domain, target);
    if others == 0 {
        return Some(target);
    }
    None
}

/// Whether row q is another masked row near the row.
fn is_other(mask: u64, near: u64, row: usize, q: usize) -> bool
    requires small { q < 64 }
    ensures { IsTrue result → bit_at mask q ≡ 1 }
{
    if !has(mask, q) {
        return false;
    }
    q != row && has(near, q)
}

/// Takes from the domain of row q, where it is near, what does not agree with the row's target;
/// false where nothing is left.
fn leave(
    domains: &mut [u64],
    columns: &mut [Option<usize>],
    sides: &Sides,
    near: u64,
    row: usize,
    target: usize,
    q: usize,
) -> bool
    requires room { length sides.now.from.now.rows ≤ length domains.old }
    requires columns { sides.now.from.now.width ≤ length columns.old }
    requires sides { AreSides sides.now.from.now sides.now.mask sides.now.to.now sides.now.rows_of.now sides.now.alike.now }
    requires row { row < length sides.now.from.now.rows }
    requires row_in { bit_at sides.now.mask row ≡ 1 }
    requires target { target < length sides.now.to.now.rows }
    requires other { q < length sides.now.from.now.rows }
    requires rows { AreRows sides.now.from.now sides.now.mask sides.now.to.now domains.old }
    ensures rows { AreRows sides.now.from.now sides.now.mask sides.now.to.now domains.new }
    ensures all { KeepsSendingsTo sides.now.from.now sides.now.mask sides.now.to.now row target domains.old domains.new }
    ensures none { IsFalse result → (a : ℕ → ℕ) → IsSending sides.now.from.now sides.now.mask sides.now.to.now domains.old a → a row ≡ target → ⊥ }
{
    let from = sides.from;
    from.keeps_its_rules();
    if !is_other(sides.mask, near, row, q) {
        return true;
    }
    fill_shared(
        columns,
        sides.rows_of,
        row,
        from.head(),
        from.row(row),
        from.row(q),
    );
    let left = agreeing(columns, sides.alike, sides.to, target, domains[q]);
    if left == 0 {
        return false;
    }
    domains[q] = left;
    true
}

/// Takes from the domains of the rows near what does not agree with the row's target; false where
/// nothing is left of one.
fn leave_near(
    domains: &mut [u64],
    columns: &mut [Option<usize>],
    sides: &Sides,
    near: u64,
    row: usize,
    target: usize,
) -> bool
    requires room { length sides.now.from.now.rows ≤ length domains.old }
    requires columns { sides.now.from.now.width ≤ length columns.old }
    requires sides { AreSides sides.now.from.now sides.now.mask sides.now.to.now sides.now.rows_of.now sides.now.alike.now }
    requires row { row < length sides.now.from.now.rows }
    requires row_in { bit_at sides.now.mask row ≡ 1 }
    requires target { target < length sides.now.to.now.rows }
    requires rows { AreRows sides.now.from.now sides.now.mask sides.now.to.now domains.old }
    ensures rows { AreRows sides.now.from.now sides.now.mask sides.now.to.now domains.new }
    ensures all { KeepsSendingsTo sides.now.from.now sides.now.mask sides.now.to.now row target domains.old domains.new }
    ensures none { IsFalse result → (a : ℕ → ℕ) → IsSending sides.now.from.now sides.now.mask sides.now.to.now domains.old a → a row ≡ target → ⊥ }
{
    for q in 0..sides.from.row_count() {
        if !leave(domains, columns, sides, near, row, target, q) {
            return false;
        }
    }
    true
}

/// The same by a row that waits and has one target: the rows that wait then, or none where nothing
/// is left of one.
fn leave_by(
    domains: &mut [u64],
    columns: &mut [Option<usize>],
    sides: &Sides,
    near: u64,
    waiting: u64,
    row: usize,
) -> Option<u64>
    requires room { length sides.now.from.now.rows ≤ length domains.old }
    requires columns { sides.now.from.now.width ≤ length columns.old }
    requires sides { AreSides sides.now.from.now sides.now.mask sides.now.to.now sides.now.rows_of.now sides.now.alike.now }
    requires row { row < length sides.now.from.now.rows }
    requires rows { AreRows sides.now.from.now sides.now.mask sides.now.to.now domains.old }
    ensures rows { AreRows sides.now.from.now sides.now.mask sides.now.to.now domains.new }
    ensures all { KeepsSendings sides.now.from.now sides.now.mask sides.now.to.now domains.old domains.new }
    ensures none { result ≡ None → (a : ℕ → ℕ) → IsSending sides.now.from.now sides.now.mask sides.now.to.now domains.old a → ⊥ }
{
    sides.from.keeps_its_rules();
    if !has(sides.mask, row) {
        return Some(waiting);
    }
    if !has(waiting, row) {
        return Some(waiting);
    }
    match one_target(domains[row]) {
        None => Some(waiting),
        Some(target) => {
            if !leave_near(domains, columns, sides, near, row, target) {
                return None;
            }
            Some(without(waiting, row))
        }
    }
}

/// The same by each row that waits, in order.
fn leave_all(
    domains: &mut [u64],
    columns: &mut [Option<usize>],
    sides: &Sides,
    near: &[u64],
    waiting: u64,
) -> Option<u64>
    requires room { length sides.now.from.now.rows ≤ length domains.old }
    requires columns { sides.now.from.now.width ≤ length columns.old }
    requires sides { AreSides sides.now.from.now sides.now.mask sides.now.to.now sides.now.rows_of.now sides.now.alike.now }
    requires near { length sides.now.from.now.rows ≤ length near.now }
    requires rows { AreRows sides.now.from.now sides.now.mask sides.now.to.now domains.old }
    ensures rows { AreRows sides.now.from.now sides.now.mask sides.now.to.now domains.new }
    ensures all { KeepsSendings sides.now.from.now sides.now.mask sides.now.to.now domains.old domains.new }
    ensures none { result ≡ None → (a : ℕ → ℕ) → IsSending sides.now.from.now sides.now.mask sides.now.to.now domains.old a → ⊥ }
{
    let mut waits = waiting;
    for row in 0..sides.from.row_count() {
        match leave_by(domains, columns, sides, near[row], waits, row) {
            Some(left) => waits = left,
            None => return None,
        }
    }
    Some(waits)
}

/// Takes from the domains what does not agree with the one target of another row, each row in its
/// turn; false where nothing is left of one. How far it goes is a matter of speed alone.
pub fn narrow(
    domains: &mut [u64],
    columns: &mut [Option<usize>],
    sides: &Sides,
    near: &[u64],
) -> bool
    requires room { length sides.now.from.now.rows ≤ length domains.old }
    requires columns { sides.now.from.now.width ≤ length columns.old }
    requires sides { AreSides sides.now.from.now sides.now.mask sides.now.to.now sides.now.rows_of.now sides.now.alike.now }
    requires near { length sides.now.from.now.rows ≤ length near.now }
    requires rows { AreRows sides.now.from.now sides.now.mask sides.now.to.now domains.old }
    ensures { IsFalse result → (a : ℕ → ℕ) → IsSending sides.now.from.now sides.now.mask sides.now.to.now domains.old a → ⊥ }
{
    let mut waiting = sides.mask;
    for _ in 0..64 {
        match leave_all(domains, columns, sides, near, waiting) {
            Some(left) => {
                if left == waiting {
                    return true;
                }
                waiting = left;
            }
            None => return false,
        }
    }
    true
}
