//! Whether a fold goes into the kept rows.
ghost use Rattle.std.specs.Prelude.{◌≡◌, ◌≤◌, ◌↔◌, [], IsTrue, IfOk, length};
ghost use Rattle.su_check.specs.inside.Boards.{IsReady};
ghost use Rattle.su_check.specs.Certificate.{lines_of, IsGoodFold};

use crate::boards::Board;
use crate::certificates::StatedTerm;
use crate::fitting::fits;
use crate::numbers::contains;
use crate::sending::{Sent, StepColumn};
use std::alloc::Global;
use su_base::{List, NoMemory};

/// Whether the fold of the term is a containment mapping into its kept rows.
pub fn is_good_fold(
    alloc: Global,
    term: &StatedTerm,
    board: &Board,
    places: &mut [StepColumn],
) -> Result<bool, NoMemory>
    requires ready { IsReady (lines_of term.now) board.now [] places.old }
    requires few { length term.now.rows ≤ 64 }
    ensures tells { IfOk result (λ b. IsTrue b ↔ IsGoodFold term.now) }
    ensures ready { IfOk result (λ _. IsReady (lines_of term.now) board.now [] places.new) }
{
    if term.fold.len() != term.rows.len() {
        return Ok(false);
    }
    let mut sent = List::new(alloc);
    for i in 0..term.rows.len() {
        let row = i as u8;
        let target = term.fold.as_slice()[i];
        if !contains(term.kept.as_slice(), target) {
            return Ok(false);
        }
        if !fits(term, board, &mut sent, places, row, target)? {
            return Ok(false);
        }
        sent.push(Sent { row, target })?;
    }
    Ok(true)
}
