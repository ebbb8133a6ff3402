//! The statements of a file and the tokens of a statement.
//!
//! `cut` finds the pieces of a file that stand between its `;`, `tokens` the tokens of a piece. Both
//! go over their bytes once, from the left. A token carries where it stands; of the text only the
//! contents of quoted texts are copied. `symbols` makes the tokens with the bytes of their words, and
//! without their places, in one pass of its own; a `Reader` hands them out from the left, so that a name
//! or a literal is moved from there to where it stays. `push_word`, `push_kind` and `push_sign` make
//! symbols, `push_spaced` writes them and `push_numbers` writes a list of numbers; `nests_too_deep` counts
//! their parentheses. None of it knows the statements.
#![tactic(auto)]

mod bytes;
mod comments;
mod crossing;
mod cutter;
mod ends;
mod firsts;
mod kinds;
mod laws;
mod lexer;
mod meaning;
mod nesting;
mod numbers;
mod pushing;
mod quoting;
mod readers;
mod signs;
mod spans;
mod spelling;
mod words;

pub use cutter::cut;
pub use ends::LexEnd;
pub use kinds::{Token, TokenKind};
pub use laws::{
    a_file_has_one_list_of_pieces, a_text_has_one_list_of_symbols, a_text_has_one_list_of_tokens,
    spaced_symbols_are_read_again,
};
pub use lexer::tokens;
pub use meaning::{Symbol, symbols};
pub use nesting::nests_too_deep;
pub use pushing::{push_kind, push_sign, push_word};
pub use readers::Reader;
pub use signs::Sign;
pub use spans::Span;
pub use spelling::{push_numbers, push_spaced, push_symbol};
