//! The first token of a text, told by its first bytes.
ghost use Rattle.std.specs.Prelude.{◌≡◌, IfOk, IsErrOf};
ghost use Rattle.su_lex.specs.inside.Firsts.{IsFirstToken, HasNoFirstToken};
ghost use Rattle.su_lex.specs.inside.Classes.{class_at};

use crate::ends::LexEnd;
use crate::kinds::TokenKind;
use crate::numbers::number;
use crate::quoting::quoted_text;
use crate::signs::{sign_len, sign_of};
use crate::words::word;
use std::alloc::Global;
use su_base::letter;

/// What the first bytes tell of a token.
#[derive(Clone, Copy, PartialEq, Eq, Debug)]
enum Class {
    Word,
    Number,
    Text,
    Sign,
}

fn class_of(text: &[u8]) -> Class
    ensures { result ≡ class_at text.now }
{
    match text {
        [b, ..] if letter(*b) => Class::Word,
        [b, ..] if b.is_ascii_digit() => Class::Number,
        [b'-', b, ..] if b.is_ascii_digit() => Class::Number,
        [b'\'', ..] => Class::Text,
        _ => Class::Sign,
    }
}

/// The first token of a text, and how many bytes it takes.
pub fn first(alloc: Global, text: &[u8]) -> Result<(TokenKind, usize), LexEnd>
    ensures found { IfOk result (λ t. IsFirstToken text.now t.0 t.1) }
    ensures none { IsErrOf result LexEnd.Syntax → HasNoFirstToken text.now }
{
    match class_of(text) {
        Class::Word => word(text),
        Class::Number => number(text),
        Class::Text => quoted_text(alloc, text),
        Class::Sign => match sign_of(text) {
            Some(s) => Ok((TokenKind::Sign(s), sign_len(s))),
            None => Err(LexEnd::Syntax),
        },
    }
}
