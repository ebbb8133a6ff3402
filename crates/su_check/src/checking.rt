//! The verdict on the bytes of a certificate.
ghost use Rattle.std.specs.Prelude.{◌≡◌, ◌<◌, ◌^◌, ℕ, IfOk, MatchOption, length};
ghost use Rattle.su_check.specs.Certificate.{IsGood};
ghost use Rattle.su_check.specs.Verdict.{IsTermFault, IsVerdictOn, IsVerdict, AreLeast};

use crate::certificates::StatedTerm;
use crate::folds::is_good_fold;
use crate::forms::board_of_form;
use crate::reading::read;
use crate::sending::StepColumn;
use crate::trees::tree_fault;
use crate::verdicts::{Checked, Fault};
use std::alloc::Global;
use su_base::{Kind, NoMemory};
use su_lex::LexEnd;

/// What is at fault in the term at this place, if anything is.
fn term_fault(
    alloc: Global,
    kinds: &[Kind],
    place: u32,
    term: &StatedTerm,
) -> Result<Option<Fault>, NoMemory>
    ensures { IfOk result (λ f. MatchOption f (IsGood kinds.now place term.now) (IsTermFault kinds.now place term.now)) }
{
    let Some(board) = board_of_form(alloc, kinds, place, term)? else {
        return Ok(Some(Fault::Form(place)));
    };
    let start = StepColumn { step: 0, column: 0 };
    let mut places = vec![in alloc; start; board.variables.len()]?;
    if !is_good_fold(alloc, term, &board, places.as_mut_slice())? {
        return Ok(Some(Fault::Fold(place)));
    }
    match tree_fault(alloc, term, &board, places.as_mut_slice())? {
        Some(row) => Ok(Some(Fault::Tree { term: place, row })),
        None => Ok(None),
    }
}

/// The verdict on terms over columns of these kinds.
fn verdict_of(alloc: Global, kinds: &[Kind], terms: &[StatedTerm]) -> Result<Checked, NoMemory>
    requires { length terms.now < 2 ^ 32 }
    ensures { IfOk result (λ v. IsVerdictOn kinds.now terms.now v) }
{
    for i in 0..terms.len() {
        if let Some(fault) = term_fault(alloc, kinds, i as u32, &terms[i])? {
            return Ok(Checked::No(fault));
        }
    }
    Ok(Checked::Yes {
        terms: terms.len() as u32,
    })
}

/// The verdict on the bytes of a certificate. A term costs the square of its rows times its columns once,
/// a node of a tree a step for each column and kept row, and a branch a step for each column.
pub fn check(alloc: Global, bytes: &[u8]) -> Result<Checked, NoMemory>
    requires short { length bytes.now < 2 ^ 32 }
    ensures verdict { IfOk result (λ v. IsVerdict bytes.now v) }
    ensures least { IfOk result (λ v. (n : ℕ) → v ≡ Checked.Yes n → AreLeast bytes.now) }
{
    let certificate = match read(alloc, bytes) {
        Ok(certificate) => certificate,
        Err(LexEnd::Syntax) => return Ok(Checked::No(Fault::Syntax)),
        Err(LexEnd::NoMemory) => return Err(NoMemory),
    };
    verdict_of(
        alloc,
        certificate.kinds.as_slice(),
        certificate.terms.as_slice(),
    )
}
