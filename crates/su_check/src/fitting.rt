//! Whether a row can go to a target, beside the rows that have theirs.
ghost use Rattle.std.specs.Prelude.{◌≡◌, ◌<◌, ◌↔◌, ℕ, IsTrue, IfOk, MatchOption, Some, None, false, length, All, List as Items};
ghost use Rattle.su_check.specs.Certificate.{lines_of};
ghost use Rattle.su_check.specs.SentRows.{AreSent, sent_too};
ghost use Rattle.su_check.specs.inside.Widths.{AreWide, IsWithin};
ghost use Rattle.su_check.specs.inside.Boards.{IsFixed, IsImage, Sends, Covers, Keeps, IsReady, HasNoImage, KeepsImages};
ghost use Rattle.su_check.specs.declared.sending.Sent.{Sent as ASent};

use crate::boards::Board;
use crate::cells::{at, row_at};
use crate::certificates::StatedTerm;
use crate::sending::{Sent, StepColumn};
use su_base::{List, NoMemory};
use su_tableau::Sym;

/// The image that the place gives the symbol, if it gives one.
pub fn image<'a>(term: &'a StatedTerm, sent: &[Sent], place: StepColumn, x: &Sym) -> Option<&'a Sym>
    requires wide { AreWide term.now.rows }
    requires within { All (IsWithin (lines_of term.now)) sent.now }
    ensures { MatchOption result (HasNoImage (lines_of term.now) sent.now place x.now) (λ y. IsImage (lines_of term.now) sent.now place x.now y.now) }
{
    if place.step >= sent.len() {
        return None;
    }
    let one = sent[place.step];
    let row = row_at(term.rows.as_slice(), one.row as usize);
    if place.column >= row.len() || !at(row, place.column).same(x) {
        return None;
    }
    let target = row_at(term.rows.as_slice(), one.target as usize);
    Some(at(target, place.column))
}

/// Whether a symbol of the last row can go to the one of its target. A symbol that has no image yet gets it here.
fn cell_goes(
    term: &StatedTerm,
    sent: &[Sent],
    places: &mut [StepColumn],
    number: Option<usize>,
    x: &Sym,
    y: &Sym,
    here: StepColumn,
) -> bool
    requires wide { AreWide term.now.rows }
    requires within { All (IsWithin (lines_of term.now)) sent.now }
    requires fixed { number ≡ None → IsFixed term.now.head x.now }
    requires below { (n : ℕ) → number ≡ Some n → n < length places.old }
    requires here { IsImage (lines_of term.now) sent.now here x.now y.now }
    ensures yes { IsTrue result → Sends (lines_of term.now) sent.now places.new x.now y.now number }
    ensures no { result ≡ false → ¬ (AreSent (lines_of term.now) sent.now) }
    ensures keeps { KeepsImages (lines_of term.now) sent.now number x.now places.old places.new }
    ensures len { length places.new ≡ length places.old }
{
    match number {
        None => x.same(y),
        Some(n) => match image(term, sent, places[n], x) {
            Some(z) => z.same(y),
            None => {
                places[n] = here;
                true
            }
        },
    }
}

/// Whether the last row goes to its target, beside the rows before it.
fn last_goes(
    term: &StatedTerm,
    board: &Board,
    sent: &[Sent],
    places: &mut [StepColumn],
    row: u8,
    target: u8,
) -> bool
    requires ready { (q : Items ASent) × (sent.now ≡ sent_too q row target) × IsReady (lines_of term.now) board.now q places.old }
    requires row { row < length term.now.rows }
    requires target { target < length term.now.rows }
    ensures tells { IsTrue result ↔ AreSent (lines_of term.now) sent.now }
    ensures covers { IsTrue result → Covers (lines_of term.now) board.now sent.now places.new }
    ensures keeps { Keeps (lines_of term.now) board.now sent.now places.old places.new }
{
    let from = row_at(term.rows.as_slice(), row as usize);
    let to = row_at(term.rows.as_slice(), target as usize);
    let numbers = board.numbers.as_slice()[row as usize].as_slice();
    let step = sent.len() - 1;
    for column in 0..from.len() {
        let here = StepColumn { step, column };
        let (x, y) = (at(from, column), at(to, column));
        if !cell_goes(term, sent, places, numbers[column], x, y, here) {
            return false;
        }
    }
    true
}

/// Whether the row can go to the target, beside the rows that have theirs. It takes a step for each column, up to the first
/// that speaks against it.
pub fn fits(
    term: &StatedTerm,
    board: &Board,
    sent: &mut List<Sent>,
    places: &mut [StepColumn],
    row: u8,
    target: u8,
) -> Result<bool, NoMemory>
    requires ready { IsReady (lines_of term.now) board.now sent.old places.old }
    requires row { row < length term.now.rows }
    requires target { target < length term.now.rows }
    ensures same { IfOk result (λ _. sent.new ≡ sent.old) }
    ensures tells { IfOk result (λ b. IsTrue b ↔ AreSent (lines_of term.now) (sent_too sent.old row target)) }
    ensures ready { IfOk result (λ b. IsTrue b → IsReady (lines_of term.now) board.now (sent_too sent.old row target) places.new) }
    ensures keeps { IfOk result (λ _. Keeps (lines_of term.now) board.now sent.old places.old places.new) }
{
    sent.push(Sent { row, target })?;
    let goes = last_goes(term, board, sent.as_slice(), places, row, target);
    sent.pop();
    Ok(goes)
}
