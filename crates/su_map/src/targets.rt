//! The targets of each row by itself.
ghost use Rattle.std.specs.Prelude.{◌≡◌, ◌≤◌, ◌<◌, ◌↔◌, ℕ, IsTrue, IsFalse, length, get_or};
ghost use Rattle.std.specs.Int.{bit_at};
ghost use Rattle.su_map.specs.Lists.{row_of};
ghost use Rattle.su_map.specs.Candidates.{MapAlike};
ghost use Rattle.su_map.specs.inside.Nets.{HasBase};
ghost use Rattle.su_map.specs.inside.Netted.{IsTarget};
ghost use Rattle.su_map.specs.inside.Targets.{CellFits, HasFitting, HasNoTarget, IsPlain};

use crate::columns::{alike, column_of, holding};
use su_tableau::{Sym, Tableau, both, full, has};

/// The targets in the set which the cell of the row at the column fits.
fn fitting(head: &[Sym], to: &Tableau, row: &[Sym], repeats: bool, column: usize, set: u64) -> u64
    requires plain { IsFalse repeats → IsPlain row.now }
    requires column { column < length row.now }
    requires width { length row.now ≡ to.now.width }
    requires heads { length head.now ≡ length to.now.head }
    ensures { HasFitting head.now to.now row.now column set result }
{
    match &row[column] {
        Sym::Const(_) => holding(to, column, &row[column], set),
        Sym::Var(k) => match column_of(head, *k) {
            Some(place) => holding(to, column, &to.head()[place], set),
            None => {
                if !repeats {
                    return both(set, full(to.row_count()));
                }
                match column_of(row, *k) {
                    Some(first) => alike(to, first, column, set),
                    None => 0,
                }
            }
        },
    }
}

/// The targets in the set to which the row goes by itself.
fn targets_of(from: &Tableau, row: usize, repeats: bool, to: &Tableau, set: u64) -> u64
    requires row { row < length from.now.rows }
    requires plain { IsFalse repeats → IsPlain (row_of from.now row) }
    requires width { from.now.width ≡ to.now.width }
    requires heads { length from.now.head ≡ length to.now.head }
    requires head_agrees { MapAlike from.now.head to.now.head from.now.head to.now.head }
    ensures { (j : ℕ) → (bit_at result j ≡ 1) ↔ ((j < length to.now.rows) × (bit_at set j ≡ 1) × IsTarget from.now to.now row j) }
{
    let cells = from.row(row);
    let mut left = both(set, full(to.row_count()));
    for column in 0..cells.len() {
        left = fitting(from.head(), to, cells, repeats, column, left);
    }
    left
}

/// The targets of each masked row by itself, and whether each has one. Rows of which no variable
/// stands at two columns need not be repeating.
pub fn fill_base(
    base: &mut [u64],
    from: &Tableau,
    from_mask: u64,
    repeating: u64,
    to: &Tableau,
    to_mask: u64,
) -> bool
    requires room { length from.now.rows ≤ length base.old }
    requires plain { (i : ℕ) → i < length from.now.rows → bit_at from_mask i ≡ 1 → (bit_at repeating i ≡ 1 → ⊥) → IsPlain (row_of from.now i) }
    requires width { from.now.width ≡ to.now.width }
    requires heads { length from.now.head ≡ length to.now.head }
    requires head_agrees { MapAlike from.now.head to.now.head from.now.head to.now.head }
    ensures base { IsTrue result → HasBase from.now from_mask to.now to_mask base.new }
    ensures none { IsFalse result → HasNoTarget from.now from_mask to.now to_mask }
{
    for row in 0..from.row_count() {
        if has(from_mask, row) {
            let repeats = has(repeating, row);
            let targets = targets_of(from, row, repeats, to, to_mask);
            if targets == 0 {
                return false;
            }
            base[row] = targets;
        }
    }
    true
}
