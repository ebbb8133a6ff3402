//! An input that comes in pieces, cut into statements as they end.
//!
//! A `Stream` holds what has come behind the last statement that has ended, and looks at each byte
//! once: `push` takes a piece, `next` gives the statements that have ended one after another, `last`
//! the one that the end of the input ends. They are the statements of the whole input as su_lex cuts
//! it, whatever the pieces. It takes memory for the text that is still open and for what was pushed last.
#![tactic(auto)]

mod crossing;
mod fronts;
mod laws;
mod pieces;
mod scanning;
mod states;
mod streams;

pub use laws::{
    an_input_is_cut_in_one_way, each_input_is_cut, pieces_are_the_statements_of_files,
    texts_stay_as_more_comes, the_pieces_are_the_same_however_the_input_comes,
    what_has_ended_stays_ended, what_is_given_comes_first,
};
pub use pieces::Piece;
pub use streams::Stream;
