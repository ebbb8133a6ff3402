//! Whether a term is good in form.
ghost use Rattle.std.specs.Prelude.{◌≡◌, ◌↔◌, IsTrue, IfOk, length, All};
ghost use Rattle.su_check.specs.inside.Forms.{IsBoardIfGood};

use crate::boards::{Board, board_of, variables_in};
use crate::certificates::StatedTerm;
use crate::kinds::are_typed;
use crate::numbers::{are_below, is_ascending};
use std::alloc::Global;
use su_base::{Kind, List, NoMemory};
use su_tableau::Sym;

/// Whether each row has the width.
fn are_wide(rows: &[List<Sym>], width: usize) -> bool
    ensures { IsTrue result ↔ All (λ r. length r ≡ width) rows.now }
{
    rows.iter().all(|row| row.len() == width)
}

/// The board of the term at this place, if the term is good in form.
pub fn board_of_form(
    alloc: Global,
    kinds: &[Kind],
    place: u32,
    term: &StatedTerm,
) -> Result<Option<Board>, NoMemory>
    ensures { IfOk result (IsBoardIfGood kinds.now place term.now) }
{
    let rows = term.rows.as_slice();
    if term.number != place || rows.len() > 64 || !are_wide(rows, kinds.len()) {
        return Ok(None);
    }
    let kept = term.kept.as_slice();
    if !is_ascending(kept) || !are_below(kept, rows.len()) {
        return Ok(None);
    }
    let variables = variables_in(alloc, rows)?;
    if !are_typed(alloc, kinds, rows, variables.as_slice())? {
        return Ok(None);
    }
    board_of(alloc, term, variables)
}
