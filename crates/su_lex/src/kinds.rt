//! What a token is.
use crate::signs::Sign;
use crate::spans::Span;
use su_base::Str;

/// What a token says. A word's bytes are those of its span.
#[derive(PartialEq, Eq, Debug, Drop)]
pub enum TokenKind {
    Word,
    Int(i64),
    /// The content: without the quotes round it, and with one quote for each pair in it.
    Text(Str),
    Sign(Sign),
}

/// A token and where it stands in the text.
#[derive(PartialEq, Eq, Debug, Drop)]
pub struct Token {
    pub kind: TokenKind,
    pub span: Span,
}
