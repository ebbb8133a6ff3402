//! The sort of the first token of a text.
ghost use Rattle.std.specs.Prelude.{IfOk};
ghost use Rattle.su_faults.specs.inside.Firsts.{IsFirstOfSort, IsOfClass};

use crate::numbers::number;
use crate::quoting::quoted;
use crate::signs::{sign_len, sign_of};
use crate::sorts::Sort;
use crate::words::word;
use std::alloc::Global;
use su_base::{NoMemory, letter};

/// What the first bytes tell of a token.
#[derive(Clone, Copy)]
enum Class {
    OfWord,
    OfNumber,
    OfText,
    OfSign,
}

fn class_of(text: &[u8]) -> Class
    ensures { IsOfClass result text.now }
{
    match text {
        [b, ..] if letter(*b) => Class::OfWord,
        [b, ..] if b.is_ascii_digit() => Class::OfNumber,
        [b'-', b, ..] if b.is_ascii_digit() => Class::OfNumber,
        [b'\'', ..] => Class::OfText,
        _ => Class::OfSign,
    }
}

/// The sort of the first token of a text, and how many bytes it takes.
pub fn first(alloc: Global, text: &[u8]) -> Result<Option<(Sort, usize)>, NoMemory>
    ensures { IfOk result (IsFirstOfSort text.now) }
{
    match class_of(text) {
        Class::OfWord => Ok(word(text)),
        Class::OfNumber => match number(text) {
            Some(n) => Ok(Some((Sort::Number, n))),
            None => Ok(None),
        },
        Class::OfText => match quoted(alloc, text)? {
            Some(n) => Ok(Some((Sort::Text, n))),
            None => Ok(None),
        },
        Class::OfSign => match sign_of(text) {
            Some(sign) => Ok(Some((Sort::Sign(sign), sign_len(sign)))),
            None => Ok(None),
        },
    }
}
