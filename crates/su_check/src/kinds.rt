//! Whether the rows of a tableau are well typed.
ghost use Rattle.std.specs.Prelude.{◌≡◌, ◌<◌, ◌↔◌, ℕ, IsTrue, IfOk, Some, None, false, [], map, length, get_or, All, Contains};
ghost use Rattle.std.specs.List.Sorted.{IsNonDecreasing};
ghost use Rattle.su_base.specs.declared.values.Kind.{Kind as AKind};
ghost use Rattle.su_tableau.specs.declared.symbols.Sym.TheVariants.{Var};
ghost use Rattle.su_tableau.specs.Kinds.{sym_kind};
ghost use Rattle.su_tableau.specs.Tableaux.{Occurs};
ghost use Rattle.su_check.specs.inside.Cells.{HasFound, AreFound, AreTyped, HaveFound, AllHaveFound};

use crate::boards::place_of_variable;
use crate::cells::at;
use std::alloc::Global;
use su_base::{Kind, List, NoMemory};
use su_tableau::Sym;

/// Whether the symbol is of the kind. A variable whose kind isn't known yet gets it here.
fn has_kind(variables: &[u32], found: &mut [Option<Kind>], x: &Sym, kind: Kind) -> bool
    requires ascending { IsNonDecreasing variables.now }
    requires there { (k : ℕ) → x.now ≡ Var k → Contains variables.now k }
    requires len { length found.old ≡ length variables.now }
    ensures yes { IsTrue result → HasFound variables.now found.new x.now kind }
    ensures no { result ≡ false → (f : ℕ → AKind) → AreFound f variables.now found.old → ¬ (sym_kind f x.now ≡ kind) }
    ensures only { (f : ℕ → AKind) → AreFound f variables.now found.old → sym_kind f x.now ≡ kind → AreFound f variables.now found.new }
    ensures keeps { (n : ℕ) (k : AKind) → get_or found.old n None ≡ Some k → get_or found.new n None ≡ Some k }
    ensures len { length found.new ≡ length found.old }
{
    let k = match x {
        Sym::Const(value) => return value.kind() == kind,
        Sym::Var(k) => *k,
    };
    let Some(n) = place_of_variable(variables, k) else {
        return false;
    };
    match found[n] {
        Some(other) => other == kind,
        None => {
            found[n] = Some(kind);
            true
        }
    }
}

/// Whether the symbols of the row are of the kinds.
fn have_kinds(kinds: &[Kind], row: &[Sym], variables: &[u32], found: &mut [Option<Kind>]) -> bool
    requires ascending { IsNonDecreasing variables.now }
    requires there { (k : ℕ) → Contains row.now (Var k) → Contains variables.now k }
    requires len { length found.old ≡ length variables.now }
    requires width { length row.now ≡ length kinds.now }
    ensures yes { IsTrue result → HaveFound variables.now found.new kinds.now row.now }
    ensures no { result ≡ false → (f : ℕ → AKind) → AreFound f variables.now found.old → ¬ (map (sym_kind f) row.now ≡ kinds.now) }
    ensures only { (f : ℕ → AKind) → AreFound f variables.now found.old → map (sym_kind f) row.now ≡ kinds.now → AreFound f variables.now found.new }
    ensures keeps { (n : ℕ) (k : AKind) → get_or found.old n None ≡ Some k → get_or found.new n None ≡ Some k }
    ensures len { length found.new ≡ length found.old }
{
    for c in 0..row.len() {
        if !has_kind(variables, found, at(row, c), kinds[c]) {
            return false;
        }
    }
    true
}

/// Whether the symbols of each row are of the kinds.
fn all_have_kinds(
    kinds: &[Kind],
    rows: &[List<Sym>],
    variables: &[u32],
    found: &mut [Option<Kind>],
) -> bool
    requires ascending { IsNonDecreasing variables.now }
    requires there { (k : ℕ) → Occurs rows.now k → Contains variables.now k }
    requires len { length found.old ≡ length variables.now }
    requires widths { All (λ r. length r ≡ length kinds.now) rows.now }
    ensures yes { IsTrue result → AllHaveFound variables.now found.new kinds.now rows.now }
    ensures no { result ≡ false → (f : ℕ → AKind) → AreFound f variables.now found.old → ¬ (All (λ row. map (sym_kind f) row ≡ kinds.now) rows.now) }
{
    for row in rows {
        if !have_kinds(kinds, row.as_slice(), variables, found) {
            return false;
        }
    }
    true
}

/// Whether the rows, whose variables these are, are well typed. Each cell costs a search for its variable.
pub fn are_typed(
    alloc: Global,
    kinds: &[Kind],
    rows: &[List<Sym>],
    variables: &[u32],
) -> Result<bool, NoMemory>
    requires ascending { IsNonDecreasing variables.now }
    requires there { (k : ℕ) → Occurs rows.now k → Contains variables.now k }
    requires widths { All (λ r. length r ≡ length kinds.now) rows.now }
    ensures { IfOk result (λ b. IsTrue b ↔ AreTyped kinds.now rows.now) }
{
    let mut found = vec![in alloc; None; variables.len()]?;
    Ok(all_have_kinds(kinds, rows, variables, found.as_mut_slice()))
}
