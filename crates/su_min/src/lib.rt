//! The least rows of a tableau, and the terms of a union that no other term covers.
//!
//! `kept_mask` drops row after row from the last, each where the rows that still stand map into the
//! others: what is left has the least number of all sets that the tableau maps into, and so the
//! fewest rows of all tableaux with its answers. `minimise` keeps that with its fold in a type.
//! `reduce` compares the alike terms of a union, but for what the first one tells: a term that covers
//! it is not compared with those that it covers. Of terms that cover each other it keeps the first.
//! Each pair is a search at most, exponential at worst; a row that goes nowhere else and a pair whose
//! constants or heads don't fit need none. A thread takes the room of one search, 33 KiB per row and
//! 66 KiB beside them. Dependencies and the order of values play no part.
//!
//! For callers: `minimise` takes a tableau, and gives it back where it finds no memory, its only error;
//! `reduce` takes up to 256 minimised terms, with the same one. Both make their rooms; `kept_mask` is for who
//! has one. The theorems are of all kinds for which the tableaux are well typed, which the caller knows.
#![tactic(auto)]

mod alike;
mod crossing;
mod kept;
pub mod laws;
mod matrix;
mod minimal;
mod reduced;
mod reducing;
mod searches;

pub use kept::kept_mask;
pub use minimal::{Minimal, minimise};
pub use reduced::{Cover, Reduced};
pub use reducing::reduce;
