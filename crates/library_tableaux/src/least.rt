//! The least part of a tableau that is built by hand, by su_min.
ghost use Rattle.std.specs.Prelude.{◌≡◌, ◌<◌, ◌^◌, IfOk, IfSome, None, length};
ghost use Rattle.su_tableau.specs.Kinds.{Kinds, IsTyped};
ghost use Rattle.su_tableau.specs.Tableaux.{IsValid, IsSmall};
ghost use Rattle.su_min.specs.Kept.{IsLeastPart};
ghost use Rattle.library_tableaux.specs.Drawn.{drawn};

use std::alloc::Global;
use su_base::{List, NoMemory};
use su_min::minimise;
use su_tableau::{Sym, Tableau};

/// The tableau with these rows and this head, which compares nothing; none where it isn't valid and small:
/// a row has another width, a variable of the head stands in no row, or there are more than 64 rows or 128
/// columns. There are at most 65,535 outputs.
pub fn draw(alloc: Global, width: u8, rows: List<List<Sym>>, head: List<Sym>) -> Option<Tableau>
    requires { length head < 2 ^ 16 }
    ensures is { IfSome result (λ t. t ≡ drawn width rows head) }
    ensures none { result ≡ None → IsValid (drawn width rows head) → IsSmall (drawn width rows head) → ⊥ }
{
    let outputs = head.len() as u16;
    Tableau::checked(width, rows, head, outputs, List::new(alloc))
}

/// The rows of the tableau's least part, as a set of row numbers.
pub fn least_part(alloc: Global, t: Tableau) -> Result<u64, NoMemory>
    ensures { IfOk result (λ kept. (kinds : Kinds) → IsTyped kinds t → IsLeastPart kinds t kept) }
{
    match minimise(alloc, t) {
        Ok(minimal) => Ok(minimal.mask()),
        Err((_, e)) => Err(e),
    }
}
