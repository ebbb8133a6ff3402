//! Where a refused text goes wrong, in the words of one line.
//!
//! `push_place` adds ` at PLACE expected KIND ..`: the place in bytes from 0, behind what stands before
//! the text, and the kinds of tokens that could have stood there, as the rules of the grammar write
//! them, each once and in one order. `laws::one_place` says that a text has one such line.
#![tactic(auto)]

mod kinds;
pub mod laws;
mod places;

pub use places::push_place;
