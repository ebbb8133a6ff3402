//! A piece of the input.

use su_lex::Span;

/// A piece of the input that has ended: a statement, or white space and comments alone.
#[derive(Clone, Copy, PartialEq, Eq, Debug)]
pub struct Piece {
    /// Where it stands in the input, without the `;` behind it.
    pub span: Span,
    pub blank: bool,
}
