//! What the words of each line of a schema must be.
ghost use Rattle.std.specs.Prelude.{◌≡◌};
ghost use Rattle.su_explained.specs.Definitions.{attribute_fits, attribute_count_of, columns_fit, object_fits, is_origin_word, is_maximal_object, maximal_fits};

use crate::checks::{are_listed, is_number, is_word};
use crate::states::State;
use su_base::List;

/// Whether the words are `attribute`, a name and a kind.
pub(crate) fn fits_attribute(words: &[List<u8>]) -> bool
    ensures { result ≡ attribute_fits words.now }
{
    match words {
        [_, _, kind] => is_word(kind, "int;") || is_word(kind, "text;"),
        _ => false,
    }
}

/// How many attributes an object with so many words has: `object`, its name, its attributes, `from`,
/// its relation, and as many columns.
pub fn attribute_count(words: usize) -> usize
    ensures { result ≡ attribute_count_of words }
{
    words.saturating_sub(4) / 2
}

fn fit_columns(words: &[List<u8>]) -> bool
    ensures { result ≡ columns_fit words.now }
{
    match words {
        [from, _, columns @ ..] => is_word(from, "from") && are_listed(columns, b';'),
        _ => false,
    }
}

pub(crate) fn fits_object(words: &[List<u8>]) -> bool
    ensures { result ≡ object_fits words.now }
{
    let count = attribute_count(words.len());
    if words.len() != 2 * count + 4 {
        return false;
    }
    let (attributes, behind) = words[2..].split_at(count);
    are_listed(attributes, b')') && fit_columns(behind)
}

fn is_origin(word: &List<u8>) -> bool
    ensures { result ≡ is_origin_word word.now }
{
    is_word(word, "declared") || is_word(word, "computed")
}

fn tells_objects(state: &State, words: &[List<u8>]) -> bool
    ensures { result ≡ is_maximal_object state.now words.now }
{
    match words {
        [number, kind, _, ..] => is_number(number, state.maximal) && is_origin(kind),
        _ => false,
    }
}

pub(crate) fn fits_maximal(state: &State, words: &[List<u8>]) -> bool
    ensures { result ≡ maximal_fits state.now words.now }
{
    match words {
        [_, maximal, object, words @ ..] => {
            is_word(maximal, "maximal") && is_word(object, "object") && tells_objects(state, words)
        }
        _ => false,
    }
}
