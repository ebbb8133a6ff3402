//! Whether a valuation sends every row of a tableau to a row of a relation.
ghost use Rattle.std.specs.Prelude.{◌≡◌, ◌<◌, ◌↔◌, IsTrue, ℕ, length, Contains};
ghost use Rattle.su_tableau.specs.declared.symbols.Sym.TheVariants.{Var};
ghost use Rattle.su_tableau.specs.Tableaux.{AreBelow, AreVarsBelow};
ghost use Rattle.su_tableau.specs.Valuations.{Sends, nth, value_of, values_of};

use crate::symbols::Sym;
use crate::tableaux::Tableau;
use su_base::{Row, Value};

/// Whether the valuation that gives variable k the k-th value sends every row of the tableau to a
/// row of the universe. Each row is looked for among all rows of the universe, without memory.
pub fn holds(t: &Tableau, universe: &[Row], values: &Row) -> bool
    requires { AreVarsBelow (length values.now) t.now }
    ensures { IsTrue result ↔ Sends (nth values.now) t.now.rows universe.now }
{
    for i in 0..t.row_count() {
        if !is_sent(t.row(i), universe, values) {
            return false;
        }
    }
    true
}

fn is_sent(row: &[Sym], universe: &[Row], values: &Row) -> bool
    requires { AreBelow (length values.now) row.now }
    ensures { IsTrue result ↔ Contains universe.now (values_of (nth values.now) row.now) }
{
    for wanted in universe {
        if has_values(row, wanted.as_slice(), values) {
            return true;
        }
    }
    false
}

fn has_values(row: &[Sym], wanted: &[Value], values: &Row) -> bool
    requires { AreBelow (length values.now) row.now }
    ensures { IsTrue result ↔ (values_of (nth values.now) row.now ≡ wanted.now) }
{
    if row.len() != wanted.len() {
        return false;
    }
    for (c, x) in row.iter().enumerate() {
        if !has_value(x, &wanted[c], values) {
            return false;
        }
    }
    true
}

#[tactic(auto, using(crate::proofs::Same::value_same))]
fn has_value(x: &Sym, wanted: &Value, values: &Row) -> bool
    requires { (k : ℕ) → x.now ≡ Var k → k < length values.now }
    ensures { IsTrue result ↔ (value_of (nth values.now) x.now ≡ wanted.now) }
{
    match x {
        Sym::Const(value) => value == wanted,
        Sym::Var(k) => values.get(*k as usize) == wanted,
    }
}
