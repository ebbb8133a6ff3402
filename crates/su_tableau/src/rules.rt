//! Whether the parts of a tableau are valid.
ghost use Rattle.std.specs.Prelude.{◌≡◌, ◌+◌, ◌*◌, ◌↔◌, IsTrue, ℕ, length, All, Contains};
ghost use Rattle.su_tableau.specs.declared.symbols.Sym.TheVariants.{Var};
ghost use Rattle.su_tableau.specs.Tableaux.{Occurs, tab_of};
ghost use Rattle.su_tableau.specs.inside.Kept.{IsValidAndSmall};

use crate::essential_columns::is_var;
use crate::symbols::Sym;
use su_base::List;
use su_where::Op;

/// Whether the parts are those of a valid and small tableau.
pub fn are_valid(
    width: u8,
    rows: &[List<Sym>],
    head: &[Sym],
    outputs: u16,
    operators: &[Op],
) -> bool
    ensures { IsTrue result ↔ IsValidAndSmall (tab_of width rows.now head.now outputs operators.now) }
{
    rows.len() <= 64
        && width <= 128
        && are_wide(rows, width)
        && is_head_length(head.len(), outputs, operators.len())
        && all_occur(head, rows)
}

/// Whether each row has the width.
fn are_wide(rows: &[List<Sym>], width: u8) -> bool
    ensures { IsTrue result ↔ All (λ row. length row ≡ width) rows.now }
{
    for row in rows {
        if row.len() != width as usize {
            return false;
        }
    }
    true
}

/// Whether the head has the outputs and two symbols per operator.
fn is_head_length(len: usize, outputs: u16, operators: usize) -> bool
    ensures { IsTrue result ↔ (len ≡ outputs + 2 * operators) }
{
    let outputs = outputs as usize;
    len >= outputs && (len - outputs) % 2 == 0 && (len - outputs) / 2 == operators
}

/// Whether each variable of the head stands in a row.
fn all_occur(head: &[Sym], rows: &[List<Sym>]) -> bool
    ensures { IsTrue result ↔ ((k : ℕ) → Contains head.now (Var k) → Occurs rows.now k) }
{
    for x in head {
        if let Sym::Var(k) = x {
            if !occurs(rows, *k) {
                return false;
            }
        }
    }
    true
}

/// Whether the variable stands in a row.
fn occurs(rows: &[List<Sym>], k: u32) -> bool
    ensures { IsTrue result ↔ Occurs rows.now k }
{
    for row in rows {
        if contains(row.as_slice(), k) {
            return true;
        }
    }
    false
}

/// Whether the row holds the variable.
fn contains(row: &[Sym], k: u32) -> bool
    ensures { IsTrue result ↔ Contains row.now (Var k) }
{
    for x in row {
        if is_var(x, k) {
            return true;
        }
    }
    false
}
