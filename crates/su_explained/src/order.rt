//! Which line may stand behind the lines before it.
ghost use Rattle.std.specs.Prelude.{◌≡◌, ◌<◌, true};
ghost use Rattle.su_explained.specs.Lines.{fits};
ghost use Rattle.su_explained.specs.Ranks.{rank_of, defines_behind, between_terms};
ghost use Rattle.su_explained.specs.Order.{follows, stepped, may_end};
ghost use Rattle.su_explained.specs.States.{has_room_in, state_behind};

use crate::explanations::{
    fits_count, fits_cover, fits_fold, fits_kept, fits_row, fits_sources, fits_term,
};
use crate::kinds::Kind;
use crate::schemas::{fits_attribute, fits_maximal, fits_object};
use crate::states::State;
use su_base::List;

/// The place of a definition among the definitions, from 1; 0 for a line of an explanation.
fn rank(kind: Kind) -> u8
    ensures { result ≡ rank_of kind }
{
    match kind {
        Kind::Attribute => 1,
        Kind::Relation => 2,
        Kind::Object => 3,
        Kind::Dependency => 4,
        Kind::Declared => 5,
        Kind::Maximal => 6,
        _ => 0,
    }
}

/// Whether a definition of this kind may stand there.
fn may_define(last: Option<Kind>, kind: Kind) -> bool
    ensures { result ≡ defines_behind last kind }
{
    match last {
        None => true,
        Some(last) => 0 < rank(last) && rank(last) <= rank(kind),
    }
}

/// Whether a term may begin, or the terms end.
fn is_between_terms(state: &State) -> bool
    ensures { result ≡ between_terms state.now state.now.last }
{
    match state.last {
        Some(Kind::Variables | Kind::Covered) => true,
        Some(Kind::Sources) => state.sources == state.kept,
        _ => false,
    }
}

/// Whether a line of this kind may stand there.
fn may_follow(state: &State, kind: Kind) -> bool
    ensures { result ≡ follows state.now kind state.now.last }
{
    let last = state.last;
    match kind {
        Kind::Query => last.is_none(),
        Kind::Variables => matches!(last, Some(Kind::Query)),
        Kind::Term | Kind::Count => is_between_terms(state),
        Kind::Row => matches!(last, Some(Kind::Term | Kind::Row)),
        Kind::Head => matches!(last, Some(Kind::Row)),
        Kind::Compare | Kind::Kept => matches!(last, Some(Kind::Head | Kind::Compare)),
        Kind::Fold => matches!(last, Some(Kind::Kept)),
        Kind::Sources => matches!(last, Some(Kind::Fold | Kind::Sources)),
        Kind::Covered => matches!(last, Some(Kind::Fold)),
        _ => may_define(last, kind),
    }
}

/// What is known behind such a line.
fn behind(state: &State, kind: Kind, words: usize) -> State
    requires { has_room_in state.now ≡ true }
    ensures { result ≡ state_behind state.now kind words }
{
    let mut next = *state;
    next.last = Some(kind);
    match kind {
        Kind::Term => {
            next.terms += 1;
            next.rows = 0;
            next.sources = 0;
        }
        Kind::Row => next.rows += 1,
        Kind::Maximal => next.maximal += 1,
        Kind::Kept => next.kept = words.saturating_sub(3),
        Kind::Sources => {
            next.sources += 1;
            if state.sources == 0 {
                next.kept_terms += 1;
            }
        }
        _ => {}
    }
    next
}

/// Whether no count is past 999.
fn has_room(state: &State) -> bool
    ensures { result ≡ has_room_in state.now }
{
    state.terms < 1000
        && state.kept_terms < 1000
        && state.rows < 1000
        && state.sources < 1000
        && state.maximal < 1000
}

/// Whether the words are those of a line of this kind.
fn fits_line(state: &State, kind: Kind, words: &[List<u8>]) -> bool
    requires { state.now.rows < 1000 }
    ensures { result ≡ fits state.now kind words.now }
{
    match kind {
        Kind::Query | Kind::Variables | Kind::Declared => words.len() > 1,
        Kind::Term => fits_term(state, words),
        Kind::Row => fits_row(state, words),
        Kind::Head | Kind::Relation | Kind::Dependency => words.len() > 3,
        Kind::Compare => words.len() == 6,
        Kind::Kept => words.len() > 3 && fits_kept(state, words),
        Kind::Fold => fits_fold(state, words),
        Kind::Sources => fits_sources(state, words),
        Kind::Covered => fits_cover(state, words),
        Kind::Count => fits_count(state, words),
        Kind::Attribute => fits_attribute(words),
        Kind::Object => fits_object(words),
        Kind::Maximal => fits_maximal(state, words),
    }
}

/// What is known behind a line of this kind and these words, if it may stand there.
pub fn step(state: &State, kind: Kind, words: &[List<u8>]) -> Option<State>
    ensures { result ≡ stepped state.now kind words.now }
{
    if has_room(state) && may_follow(state, kind) && fits_line(state, kind, words) {
        return Some(behind(state, kind, words.len()));
    }
    None
}

/// Whether the text may end there.
pub fn is_end(state: &State) -> bool
    ensures { result ≡ may_end state.now.last }
{
    match state.last {
        None | Some(Kind::Count) => true,
        Some(kind) => 0 < rank(kind),
    }
}
