//! Where a head can't be a row.
ghost use Rattle.std.specs.Prelude.{◌≡◌, ◌≢◌, ◌<◌, ◌↔◌, IsTrue, MatchOption, Some, length, slice_get};
ghost use Rattle.su_tableau.specs.declared.symbols.Sym.TheVariants.{Var};
ghost use Rattle.su_why.specs.Heads.{StoodOtherwise, IsClash, IsFirstClash, HaveNoClash};

use su_base::{Row, Value};
use su_tableau::{Sym, is_var};

/// Whether the two are one value.
#[tactic(auto, using(crate::proofs::Clashes::value_same))]
fn is_one(a: &Value, b: &Value) -> bool
    ensures { IsTrue result ↔ (a.now ≡ b.now) }
{
    a == b
}

/// Whether the variable stands at place i, beside another value than that of place j.
fn stands_otherwise(outputs: &[Sym], row: &[Value], i: usize, j: usize, k: u32) -> bool
    requires outputs { i < length outputs.now }
    requires own { i < length row.now }
    requires other { j < length row.now }
    ensures { IsTrue result ↔ ((slice_get outputs.now i ≡ Some (Var k)) × (slice_get row.now i ≢ slice_get row.now j)) }
{
    if !is_var(&outputs[i], k) {
        return false;
    }
    !is_one(&row[i], &row[j])
}

/// Whether the variable stands at an earlier place beside another value.
fn stood_otherwise(outputs: &[Sym], row: &[Value], j: usize, k: u32) -> bool
    requires outputs { j < length outputs.now }
    requires row { j < length row.now }
    ensures { IsTrue result ↔ StoodOtherwise outputs.now row.now j k }
{
    for i in 0..j {
        if stands_otherwise(outputs, row, i, j, k) {
            return true;
        }
    }
    false
}

/// Whether the head and the row clash at the place, which both have.
fn clashes_at(outputs: &[Sym], row: &[Value], j: usize) -> bool
    requires outputs { j < length outputs.now }
    requires row { j < length row.now }
    ensures { IsTrue result ↔ IsClash outputs.now row.now j }
{
    match &outputs[j] {
        Sym::Const(value) => !is_one(value, &row[j]),
        Sym::Var(k) => stood_otherwise(outputs, row, j, *k),
    }
}

/// The first place at which the head and the row clash.
pub fn first_clash(outputs: &[Sym], row: &Row) -> Option<usize>
    ensures { MatchOption result (HaveNoClash outputs.now row.now) (IsFirstClash outputs.now row.now) }
{
    let h = row.as_slice();
    let symbols = outputs.len();
    let values = h.len();
    let both = symbols.min(values);
    for j in 0..both {
        if clashes_at(outputs, h, j) {
            return Some(j);
        }
    }
    if symbols != values {
        return Some(both);
    }
    None
}
