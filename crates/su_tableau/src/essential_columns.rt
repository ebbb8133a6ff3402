//! The essential columns of a row.
ghost use Rattle.std.specs.Prelude.{◌≡◌, ◌≢◌, ◌<◌, ◌↔◌, IsTrue, ℕ, length, get_or, Contains, true};
ghost use Rattle.std.specs.Int.{bit_at};
ghost use Rattle.std.specs.FinSet as set;
ghost use Rattle.su_tableau.specs.declared.symbols.Sym.{Sym as ASym};
ghost use Rattle.su_tableau.specs.declared.symbols.Sym.TheVariants.{Var};
ghost use Rattle.su_tableau.specs.Essential.{HasSymbol, IsElsewhere, IsEssential};
ghost use Rattle.su_tableau.specs.inside.Elsewhere.{StandsElsewhere};

use crate::masks::has;
use crate::symbols::Sym;
use crate::tableaux::Tableau;
use su_base::AttrSet;

/// The columns at which the row holds a constant, a head variable, or a variable that stands at
/// least twice in the rows of the mask. A pass over these rows per column, without memory.
pub fn essential(t: &Tableau, mask: u64, row: usize) -> AttrSet
    requires row { row < length t.now.rows }
    requires in_mask { bit_at mask row ≡ 1 }
    ensures { (c : ℕ) → IsTrue (set.contains result c) ↔ IsEssential t.now mask row c }
{
    t.keeps_its_rules();
    let mut columns = AttrSet::empty();
    for c in 0..t.width() {
        if is_essential(t, mask, row, c) {
            columns = columns.insert(c);
        }
    }
    columns
}

fn is_essential(t: &Tableau, mask: u64, row: usize, column: u8) -> bool
    requires row { row < length t.now.rows }
    requires in_mask { bit_at mask row ≡ 1 }
    requires column { column < t.now.width }
    ensures { IsTrue result ↔ IsEssential t.now mask row column }
{
    t.keeps_its_rules();
    match t.cell(row, column) {
        Sym::Const(_) => true,
        Sym::Var(k) => stands_in(t.head(), *k, None) || stands_elsewhere(t, mask, row, column, *k),
    }
}

/// Whether another cell of the masked rows than this one holds the variable.
fn stands_elsewhere(t: &Tableau, mask: u64, row: usize, column: u8, k: u32) -> bool
    requires row { row < length t.now.rows }
    ensures { IsTrue result ↔ IsElsewhere t.now mask row column k }
{
    for i in 0..t.row_count() {
        if has(mask, i) && stands_in(t.row(i), k, left_out(i, row, column)) {
            return true;
        }
    }
    false
}

/// The column of row i that is not to be looked at.
fn left_out(i: usize, row: usize, column: u8) -> Option<usize>
    ensures { (c : ℕ) → (result ≡ Some c) ↔ ((i ≡ row) × (c ≡ column)) }
{
    if i == row {
        Some(column as usize)
    } else {
        None
    }
}

/// Whether the row holds the variable, at another column than the one that is left out.
fn stands_in(row: &[Sym], k: u32, but: Option<usize>) -> bool
    ensures { IsTrue result ↔ StandsElsewhere row.now k but }
{
    for (c, x) in row.iter().enumerate() {
        if is_var(x, k) && but != Some(c) {
            return true;
        }
    }
    false
}

/// Whether the symbol is the variable.
pub fn is_var(x: &Sym, k: u32) -> bool
    ensures { IsTrue result ↔ (x.now ≡ Var k) }
{
    match x {
        Sym::Const(_) => false,
        Sym::Var(j) => *j == k,
    }
}
