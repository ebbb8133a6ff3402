//! Which texts may name something, and names that may be missing.
ghost use Rattle.std.specs.Prelude.{◌≡◌, ◌↔◌, IsTrue, ◌==◌, IfOk};
ghost use Rattle.std.specs.List.{list_any};
ghost use Rattle.std.specs.Cmp.Lexicographic.{pointwise};
ghost use Rattle.su_base.specs.Name.{is_letter, is_letter_or_digit, IsWord, is_reserved_word, IsName};

use crate::lists::NoMemory;
use crate::texts::Str;
use std::alloc::Global;

const RESERVED: [&str; 23] = [
    "attribute",
    "relation",
    "object",
    "from",
    "fd",
    "maximal",
    "int",
    "text",
    "insert",
    "delete",
    "where",
    "load",
    "print",
    "schema",
    "closure",
    "retrieve",
    "explain",
    "and",
    "or",
    "not",
    "compare",
    "with",
    "window",
];

/// Whether the byte is an ASCII letter or `_`.
pub fn letter(b: u8) -> bool
    ensures { result ≡ is_letter b }
{
    b.is_ascii_alphabetic() || b == b'_'
}

/// Whether the byte is an ASCII letter, a digit or `_`.
pub fn letter_or_digit(b: u8) -> bool
    ensures { result ≡ is_letter_or_digit b }
{
    letter(b) || b.is_ascii_digit()
}

fn is_word(text: &str) -> bool
    ensures { IsTrue result ↔ IsWord text.now }
{
    match text.as_bytes() {
        [] => false,
        [first, rest @ ..] => letter(*first)
            && rest.len() < 64
            && rest.iter().all(|b| letter_or_digit(*b)),
    }
}

fn is_among(words: &[&str], text: &str) -> bool
    ensures { result ≡ list_any (λ word. pointwise ◌==◌ word.now text.now) words.now }
{
    words.iter().any(|word| *word == text)
}

fn is_reserved(text: &str) -> bool
    ensures { result ≡ is_reserved_word text.now }
{
    is_among(&RESERVED, text)
}

/// Whether the text may name an attribute, a relation or an object.
pub fn is_name(text: &str) -> bool
    ensures { IsTrue result ↔ IsName text.now }
{
    is_word(text) && !is_reserved(text)
}

/// An equal name of its own, where there is one.
pub fn copy_name(alloc: Global, name: &Option<Str>) -> Result<Option<Str>, NoMemory>
    ensures { IfOk result (λ n. n ≡ name.now) }
{
    match name {
        Some(text) => Ok(Some(text.copy(alloc)?)),
        None => Ok(None),
    }
}
