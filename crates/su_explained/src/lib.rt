//! What sysu writes for `explain` and for `schema`, read as lines.
//!
//! A text is cut into lines of words, which loses nothing, and each line is known by its first words and
//! must stand where the lines before it let it. The main invariant is that a text is read exactly if it
//! is such lines, else its first line at fault is told. It takes memory for each word of the text.
//! Whether a query has such an explanation is not asked.
#![tactic(auto)]

mod checks;
mod explanations;
mod kinds;
mod numbers;
mod order;
mod pieces;
mod reading;
mod schemas;
mod states;

pub use checks::are_same;
pub use kinds::{Kind, kind_of};
pub use numbers::number_of;
pub use order::{is_end, step};
pub use pieces::{Cut, Piece, cut_text};
pub use reading::{Fault, Line, read};
pub use schemas::attribute_count;
pub use states::{START, State};
