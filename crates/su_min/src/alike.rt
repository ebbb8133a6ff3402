//! Whether two terms are alike.
ghost use Rattle.std.specs.Prelude.{◌≡◌, ◌↔◌, ℕ, IsTrue, IsFalse, length, map, drop};
ghost use Rattle.su_tableau.specs.declared.symbols.Sym.{Sym as ASym};
ghost use Rattle.su_tableau.specs.Mapping.{image_of, images_of};
ghost use Rattle.su_min.specs.Cover.{AreAlike};
ghost use Rattle.su_min.specs.inside.Constants.{with_one_variable};

use su_tableau::{Sym, Tableau};
use su_where::Op;

/// Whether both are variables, or both are the same constant.
fn is_alike(x: &Sym, y: &Sym) -> bool
    ensures { IsTrue result ↔ (with_one_variable x.now ≡ with_one_variable y.now) }
{
    match (x, y) {
        (Sym::Const(a), Sym::Const(b)) => a == b,
        (Sym::Var(_), Sym::Var(_)) => true,
        _ => false,
    }
}

/// Whether the symbols from the place on are alike, one by one.
fn ends_are_alike(xs: &[Sym], ys: &[Sym], start: usize) -> bool
    requires { length xs.now ≡ length ys.now }
    ensures { IsTrue result ↔ (map with_one_variable (drop start xs.now) ≡ map with_one_variable (drop start ys.now)) }
{
    for i in start..xs.len() {
        if !is_alike(&xs[i], &ys[i]) {
            return false;
        }
    }
    true
}

/// Whether the two are the same operators in order.
fn are_same(xs: &[Op], ys: &[Op]) -> bool
    ensures { IsTrue result ↔ (xs.now ≡ ys.now) }
{
    xs == ys
}

/// Whether the two have as many columns and outputs, the same operators, and at each compared place
/// both a variable or both the same constant.
pub fn are_alike(s: &Tableau, t: &Tableau) -> bool
    ensures { IsTrue result ↔ AreAlike s.now t.now }
{
    s.keeps_its_rules();
    t.keeps_its_rules();
    if s.width() != t.width() {
        return false;
    }
    if s.outputs() != t.outputs() {
        return false;
    }
    if !are_same(s.operators(), t.operators()) {
        return false;
    }
    ends_are_alike(s.head(), t.head(), s.outputs() as usize)
}

/// Whether a mapping may send the symbol to the other one: a constant goes to itself alone.
fn may_go(x: &Sym, y: &Sym) -> bool
    ensures { IsFalse result → (symbols : ℕ → ASym) → image_of symbols x.now ≡ y.now → ⊥ }
{
    match (x, y) {
        (Sym::Const(c), Sym::Const(d)) => c == d,
        (Sym::Const(_), Sym::Var(_)) => false,
        (Sym::Var(_), _) => true,
    }
}

/// Whether a mapping may send the one head to the other, as far as their constants tell.
pub fn heads_fit(xs: &[Sym], ys: &[Sym]) -> bool
    requires { length xs.now ≡ length ys.now }
    ensures { IsFalse result → (symbols : ℕ → ASym) → images_of symbols xs.now ≡ ys.now → ⊥ }
{
    for i in 0..xs.len() {
        if !may_go(&xs[i], &ys[i]) {
            return false;
        }
    }
    true
}
