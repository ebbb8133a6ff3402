//! A text read as the lines of an explanation or of a schema.
ghost use Rattle.std.specs.Prelude.{◌≡◌, ◌⊎◌, ◌&&◌, true, false, Some, None, IfOk, IfErr};
ghost use Rattle.su_explained.specs.declared.reading.Fault.TheVariants.{NoMemory as OutOfMemory};
ghost use Rattle.su_explained.specs.Order.{may_end};
ghost use Rattle.su_explained.specs.States.{at_start};
ghost use Rattle.su_explained.specs.TextLines.{behind_words, IsLineOf, AreRead, AreLinesOf};
ghost use Rattle.su_explained.specs.LineFaults.{IsFaultOf};
ghost use Rattle.su_explained.specs.inside.PieceFaults.{IsFaultAmong};

use crate::kinds::{Kind, kind_of};
use crate::order::{is_end, step};
use crate::pieces::{Cut, Piece, cut_text};
use crate::states::{START, State};
use std::alloc::Global;
use su_base::{List, NoMemory};

/// A line of the text: what it is, and its words.
pub struct Line {
    pub kind: Kind,
    pub words: List<List<u8>>,
}

/// Not derived, so that it is a single call wherever a line goes out of scope.
impl Drop for Line {
    fn drop(self) {
        let Line { kind: _, words: _ } = self;
    }
}

/// Why a text is not read.
#[derive(Clone, Copy, PartialEq, Eq)]
pub enum Fault {
    /// The line with this number, as an editor counts from 1, can't stand there.
    Line(usize),
    NoMemory,
}

impl From<NoMemory> for Fault {
    ghost from_gives = { λ _ f. f ≡ OutOfMemory };

    fn from(_: NoMemory) -> Fault {
        Fault::NoMemory
    }
}

/// So that `push(..)?` converts. The line is dropped.
impl From<(Line, NoMemory)> for Fault {
    ghost from_gives = { λ _ f. f ≡ OutOfMemory };

    fn from(_: (Line, NoMemory)) -> Fault {
        Fault::NoMemory
    }
}

/// The line, if it may stand there, and what is known behind it.
fn line_of(state: &State, piece: Piece) -> Result<(Line, State), usize>
    ensures line { IfOk result (λ r. IsLineOf r.0 piece.words × (behind_words state.now piece.words ≡ Some r.1)) }
    ensures fault { IfErr result (λ n. (behind_words state.now piece.words ≡ None) × (n ≡ piece.number)) }
{
    let Piece { number, words } = piece;
    match kind_of(words.as_slice()) {
        Some(kind) => match step(state, kind, words.as_slice()) {
            Some(next) => Ok((Line { kind, words }, next)),
            None => Err(number),
        },
        None => Err(number),
    }
}

/// The lines that the pieces are read as, and what is known behind them.
fn read_pieces(alloc: Global, pieces: List<Piece>) -> Result<(List<Line>, State), Fault>
    ensures read { IfOk result (λ r. AreRead at_start pieces r.0 r.1) }
    ensures fault { IfErr result (λ fault. (fault ≡ Fault.NoMemory) ⊎ IsFaultAmong pieces fault) }
{
    let mut lines = List::new(alloc);
    let mut state = START;
    for piece in pieces.into_vec() {
        match line_of(&state, piece) {
            Ok((line, next)) => {
                lines.push(line)?;
                state = next;
            }
            Err(number) => return Err(Fault::Line(number)),
        }
    }
    Ok((lines, state))
}

/// The lines, if the text may end behind them, or the number of the line that is wanting.
fn ended(lines: List<Line>, state: &State, whole: bool, number: usize) -> Result<List<Line>, Fault>
    ensures ok { IfOk result (λ ls. (ls ≡ lines) × ((whole && may_end state.now.last) ≡ true)) }
    ensures fault { IfErr result (λ f. (f ≡ Fault.Line number) × ((whole && may_end state.now.last) ≡ false)) }
{
    if whole && is_end(state) {
        return Ok(lines);
    }
    Err(Fault::Line(number))
}

/// The lines of an explanation or of a schema, or the first line that can't stand where it stands: the
/// line behind the last one, where the text ends too soon. It takes memory for each word of the text.
pub fn read(alloc: Global, text: &[u8]) -> Result<List<Line>, Fault>
    ensures read { IfOk result (AreLinesOf text.now) }
    ensures fault { IfErr result (λ fault. (fault ≡ Fault.NoMemory) ⊎ IsFaultOf text.now fault) }
{
    let cut = cut_text(alloc, text)?;
    let whole = cut.is_whole();
    let Cut { pieces, number, .. } = cut;
    match read_pieces(alloc, pieces) {
        Ok((lines, state)) => ended(lines, &state, whole, number),
        Err(fault) => Err(fault),
    }
}
