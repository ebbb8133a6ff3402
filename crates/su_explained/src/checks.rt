//! What words of lines must be.
ghost use Rattle.std.specs.Prelude.{◌≡◌};
ghost use Rattle.std.specs.List.{list_all};
ghost use Rattle.std.specs.Str.{bytes_eq};
ghost use Rattle.su_explained.specs.Checks.{is_decimal, is_decimal_below, ends, begins, separated, listed, cells};

use crate::numbers::number_of;
use su_base::List;

/// Whether they are the same bytes.
pub fn are_same(one: &[u8], other: &[u8]) -> bool
    ensures { result ≡ bytes_eq one.now other.now }
{
    one == other
}

pub(crate) fn is_word(word: &List<u8>, text: &str) -> bool
    ensures { result ≡ bytes_eq word.now text.now }
{
    word.as_slice() == text.as_bytes()
}

/// Whether the word is the decimal of this number.
pub(crate) fn is_number(word: &List<u8>, number: usize) -> bool
    ensures { result ≡ is_decimal number word.now }
{
    match number_of(word.as_slice()) {
        Some(found) => found == number,
        None => false,
    }
}

/// Whether the word is the decimal of a number below this one.
pub(crate) fn is_below(word: &List<u8>, end: usize) -> bool
    ensures { result ≡ is_decimal_below end word.now }
{
    match number_of(word.as_slice()) {
        Some(found) => found < end,
        None => false,
    }
}

pub(crate) fn are_below(words: &[List<u8>], end: usize) -> bool
    ensures { result ≡ list_all (is_decimal_below end) words.now }
{
    words.iter().all(|word| is_below(word, end))
}

/// Whether the word ends with this byte.
fn ends_with(word: &List<u8>, byte: u8) -> bool
    ensures { result ≡ ends byte word.now }
{
    match word.as_slice().last() {
        Some(last) => *last == byte,
        None => false,
    }
}

/// Whether the word begins with this byte.
fn starts_with(word: &List<u8>, byte: u8) -> bool
    ensures { result ≡ begins byte word.now }
{
    match word.as_slice().first() {
        Some(first) => *first == byte,
        None => false,
    }
}

/// Whether each word ends with a comma, but the last with this byte.
fn are_separated(words: &[List<u8>], end: u8) -> bool
    ensures { result ≡ separated end words.now }
{
    match words {
        [] => false,
        [last] => ends_with(last, end),
        [word, rest @ ..] => ends_with(word, b',') && are_separated(rest, end),
    }
}

/// Whether the words are names in parentheses, separated by commas, and then this byte.
pub(crate) fn are_listed(words: &[List<u8>], end: u8) -> bool
    ensures { result ≡ listed end words.now }
{
    match words {
        [first, ..] => starts_with(first, b'(') && are_separated(words, end),
        [] => false,
    }
}

/// Whether each word has a sign of equality.
pub(crate) fn are_cells(words: &[List<u8>]) -> bool
    ensures { result ≡ cells words.now }
{
    words.iter().all(|word| word.as_slice().contains(&b'='))
}
