//! Columns of a variable, and targets by what they hold at a column.
ghost use Rattle.std.specs.Prelude.{◌≡◌, ◌<◌, ◌↔◌, ℕ, IfSome, IsTrue, [], length, get_or, Contains, None, Some};
ghost use Rattle.std.specs.Int.{bit_at};
ghost use Rattle.su_tableau.specs.declared.symbols.Sym.{Sym as ASym};
ghost use Rattle.su_tableau.specs.declared.symbols.Sym.TheVariants.{Var};
ghost use Rattle.su_map.specs.Lists.{row_of};
ghost use Rattle.su_tableau.specs.Parts.{Cell};
ghost use Rattle.su_map.specs.Candidates.{KeepsConstants, MapAlike};
ghost use Rattle.su_map.specs.inside.Targets.{IsFirstAt, HoldsAt, AlikeAt, CellFits};

use su_tableau::{Sym, Tableau, both, full, has, with};

/// The first column of the row that holds the variable.
pub fn column_of(row: &[Sym], k: u32) -> Option<usize>
    ensures some { IfSome result (λ c. IsFirstAt row.now c k) }
    ensures none { result ≡ None → Contains row.now (Var k) → ⊥ }
{
    for (c, x) in row.iter().enumerate() {
        if let Sym::Var(j) = x {
            if *j == k {
                return Some(c);
            }
        }
    }
    None
}

/// The targets in the set that hold the symbol at the column.
pub fn holding(to: &Tableau, column: usize, x: &Sym, set: u64) -> u64
    requires { column < to.now.width }
    ensures { (j : ℕ) → (bit_at result j ≡ 1) ↔ ((j < length to.now.rows) × (bit_at set j ≡ 1) × HoldsAt to.now column x.now j) }
{
    let mut left = 0;
    for j in 0..to.row_count() {
        if has(set, j) && to.row(j)[column].same(x) {
            left = with(left, j);
        }
    }
    left
}

/// The targets in the set that hold one symbol at the two columns.
pub fn alike(to: &Tableau, first: usize, column: usize, set: u64) -> u64
    requires first { first < to.now.width }
    requires column { column < to.now.width }
    ensures { (j : ℕ) → (bit_at result j ≡ 1) ↔ ((j < length to.now.rows) × (bit_at set j ≡ 1) × AlikeAt to.now first column j) }
{
    if first == column {
        return both(set, full(to.row_count()));
    }
    let mut left = 0;
    for j in 0..to.row_count() {
        if has(set, j) && to.row(j)[column].same(&to.row(j)[first]) {
            left = with(left, j);
        }
    }
    left
}

/// Whether the cell of the line fits: a constant, or the first cell of its variable.
fn cell_fits(line: &[Sym], target: &[Sym], column: usize) -> bool
    requires same_length { length line.now ≡ length target.now }
    requires column { column < length line.now }
    ensures { IsTrue result ↔ CellFits [] [] line.now target.now column }
{
    match &line[column] {
        Sym::Const(_) => target[column].same(&line[column]),
        Sym::Var(k) => match column_of(line, *k) {
            Some(first) => target[column].same(&target[first]),
            None => true,
        },
    }
}

/// Whether the line goes to the target line by itself.
pub fn line_fits(line: &[Sym], target: &[Sym]) -> bool
    requires { length line.now ≡ length target.now }
    ensures { IsTrue result ↔ (KeepsConstants line.now target.now × MapAlike line.now target.now line.now target.now) }
{
    for column in 0..line.len() {
        if !cell_fits(line, target, column) {
            return false;
        }
    }
    true
}
