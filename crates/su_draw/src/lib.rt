//! Pictures of what sysu writes: of an explanation its tableaux, of a schema its hypergraph.
//!
//! The lines of a text are drawn as a list of things at their places, and written as SVG. The main
//! invariant is that each drawn word of the text has exactly one thing, and that the SVG is
//! well-formed XML, whatever the words are. Sizes, places and colours are in no contract. It takes
//! memory for each word of the text.
#![tactic(auto)]

mod cells;
mod cutting;
mod drawing;
mod ears;
mod elements;
mod escaping;
mod explaining;
mod gridding;
mod measures;
mod pictures;
mod shapes;
mod signs;
mod tables;
mod terms;
mod things;
mod writing;

pub use drawing::draw;
pub use ears::Edge;
pub use elements::Pair;
pub use escaping::Begun;
pub use pictures::{kept_picture_of, picture_of};
pub use shapes::{Help, Note, Picture, Position, Shape};
pub use signs::Sign;
pub use things::{Thing, What, all_things, what_of};
pub use writing::write;
