//! What is known of two tableaux before their rows are compared.
ghost use Rattle.std.specs.Prelude.{◌≡◌, ◌+◌, ◌*◌, ◌<◌, ◌≤◌, ◌↔◌, ℕ, IsTrue, length, get_or};
ghost use Rattle.std.specs.Int.{bit_at};
ghost use Rattle.su_base.specs.declared.values.Value.{Value as AValue};
ghost use Rattle.su_tableau.specs.declared.symbols.Sym.TheVariants.{Const, Var};
ghost use Rattle.su_map.specs.inside.Targets.{AreAllNoted, HoldOne, AreAlike, AreAlikeAt};

use crate::columns::holding;
use crate::tables::note_rows;
use su_tableau::{Sym, Tableau, full, with, without};

/// Two tableaux: the masked rows of the one, at each of its variables the rows of these that have it,
/// and for each column and row of the other the rows that hold the same symbol at the column.
#[derive(Drop)]
pub struct Sides<'a> {
    pub from: &'a Tableau,
    pub mask: u64,
    pub to: &'a Tableau,
    pub rows_of: &'a [u64],
    pub alike: &'a [u64],
}

/// Notes each row at each of its variables, if there is a place for each of them.
fn note_targets(rows_at: &mut [u64], to: &Tableau) -> bool
    ensures { IsTrue result → AreAllNoted to.now rows_at.new }
{
    to.keeps_its_rules();
    if to.symbols() > rows_at.len() {
        return false;
    }
    note_rows(rows_at, to, full(to.row_count()));
    true
}

/// The rows noted at a variable; all of them for a constant.
fn noted_at(rows_at: &[u64], x: &Sym, all: u64) -> u64
    requires below { (k : ℕ) → x.now ≡ Var k → k < length rows_at.now }
    ensures var { (k : ℕ) → x.now ≡ Var k → result ≡ get_or rows_at.now k 0 }
    ensures constant { (v : AValue) → x.now ≡ Const v → result ≡ all }
{
    match x {
        Sym::Var(k) => rows_at[*k as usize],
        Sym::Const(_) => all,
    }
}

/// The rows that hold at the column what row p holds there, and maybe others.
fn rows_with(rows_at: &[u64], are_noted: bool, to: &Tableau, p: usize, column: usize) -> u64
    requires row { p < length to.now.rows }
    requires column { column < to.now.width }
    requires noted { IsTrue are_noted → AreAllNoted to.now rows_at.now }
    ensures { (j : ℕ) → j < length to.now.rows → HoldOne to.now column p j → bit_at result j ≡ 1 }
{
    to.keeps_its_rules();
    let all = full(to.row_count());
    if !are_noted {
        return all;
    }
    noted_at(rows_at, &to.row(p)[column], all)
}

/// The rows that hold at the column what row p holds there. A variable that no other row has needs no
/// pass over the rows.
fn alike_at(rows_at: &[u64], are_noted: bool, to: &Tableau, p: usize, column: usize) -> u64
    requires row { p < length to.now.rows }
    requires column { column < to.now.width }
    requires noted { IsTrue are_noted → AreAllNoted to.now rows_at.now }
    ensures { (j : ℕ) → (bit_at result j ≡ 1) ↔ ((j < length to.now.rows) × HoldOne to.now column p j) }
{
    to.keeps_its_rules();
    let set = rows_with(rows_at, are_noted, to, p, column);
    let others = without(set, p);
    if others == 0 {
        return with(0, p);
    }
    holding(to, column, &to.row(p)[column], set)
}

/// For each row the rows that hold the same symbol at the column.
fn fill_column(alike: &mut [u64], rows_at: &[u64], are_noted: bool, to: &Tableau, column: usize)
    requires room { (column + 1) * 64 ≤ length alike.old }
    requires column { column < to.now.width }
    requires noted { IsTrue are_noted → AreAllNoted to.now rows_at.now }
    ensures before { (x : ℕ) → x < column * 64 → get_or alike.new x 0 ≡ get_or alike.old x 0 }
    ensures filled { AreAlikeAt to.now column alike.new }
{
    for p in 0..to.row_count() {
        let same = alike_at(rows_at, are_noted, to, p, column);
        alike[column * 64 + p] = same;
    }
}

/// For each column and row the rows that hold the same symbol at the column. The rows are noted at
/// their variables first, so a variable is looked for in the rows that have it alone.
pub fn fill_alike(alike: &mut [u64], rows_at: &mut [u64], to: &Tableau)
    requires { 8192 ≤ length alike.old }
    ensures { AreAlike to.now alike.new }
{
    to.keeps_its_rules();
    let are_noted = note_targets(rows_at, to);
    for column in 0..to.width() as usize {
        fill_column(alike, rows_at, are_noted, to, column);
    }
}
