//! What the words of each line of an explanation must be.
ghost use Rattle.std.specs.Prelude.{◌≡◌, ◌<◌};
ghost use Rattle.su_explained.specs.TermLines.{term_fits, row_fits, kept_fits, fold_fits, sources_fit};
ghost use Rattle.su_explained.specs.Lines.{cover_words_fit, cover_fits, count_fits};

use crate::checks::{are_below, are_cells, is_below, is_number, is_word};
use crate::states::State;
use su_base::List;

/// How far numbers of disjuncts, maximal objects and terms go.
const END: usize = 1000;

pub(crate) fn fits_term(state: &State, words: &[List<u8>]) -> bool
    ensures { result ≡ term_fits state.now words.now }
{
    match words {
        [_, term, disjunct, number, choice, choices @ ..] => {
            is_number(term, state.terms)
                && is_word(disjunct, "disjunct")
                && is_below(number, END)
                && is_word(choice, "choice")
                && are_below(choices, END)
        }
        _ => false,
    }
}

pub(crate) fn fits_row(state: &State, words: &[List<u8>]) -> bool
    ensures { result ≡ row_fits state.now words.now }
{
    match words {
        [_, _, _, row, _, _, cells @ ..] => is_number(row, state.rows) && are_cells(cells),
        _ => false,
    }
}

pub(crate) fn fits_kept(state: &State, words: &[List<u8>]) -> bool
    ensures { result ≡ kept_fits state.now words.now }
{
    match words {
        [_, _, _, rows @ ..] => are_below(rows, state.rows),
        _ => false,
    }
}

pub(crate) fn fits_fold(state: &State, words: &[List<u8>]) -> bool
    requires { state.now.rows < 1000 }
    ensures { result ≡ fold_fits state.now words.now }
{
    words.len() == state.rows + 3 && fits_kept(state, words)
}

pub(crate) fn fits_sources(state: &State, words: &[List<u8>]) -> bool
    ensures { result ≡ sources_fit state.now words.now }
{
    match words {
        [_, _, _, row, ..] => is_below(row, state.rows) && state.sources < state.kept,
        _ => false,
    }
}

fn fit_cover_words(state: &State, words: &[List<u8>]) -> bool
    ensures { result ≡ cover_words_fit state.now words.now }
{
    match words {
        [by, term, number, rows, targets @ ..] => {
            is_word(by, "by")
                && is_word(term, "term")
                && is_below(number, END)
                && is_word(rows, "rows")
                && are_below(targets, state.rows)
        }
        _ => false,
    }
}

pub(crate) fn fits_cover(state: &State, words: &[List<u8>]) -> bool
    ensures { result ≡ cover_fits state.now words.now }
{
    match words {
        [_, _, _, words @ ..] => fit_cover_words(state, words),
        _ => false,
    }
}

pub(crate) fn fits_count(state: &State, words: &[List<u8>]) -> bool
    ensures { result ≡ count_fits state.now words.now }
{
    match words {
        [_, terms, kept, number] => {
            is_number(terms, state.terms)
                && is_word(kept, "kept")
                && is_number(number, state.kept_terms)
        }
        _ => false,
    }
}
