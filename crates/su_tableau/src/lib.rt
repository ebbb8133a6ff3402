//! Tableaux: rows of symbols and a head, and what they say of a universal relation.
//!
//! A tableau is a conjunctive query: each row asks for a row of the relation, equal symbols ask for
//! equal values, and the head says what is answered, the compared symbols last. The type keeps it
//! valid: at most 64 rows of one width up to 128, and each head variable stands in a row. A set of
//! row numbers is a machine word. The laws say how a tableau is frozen into a relation and what its
//! essential columns are. Mappings are searched for in the crate above.
#![tactic(auto)]

mod crossing;
mod essential_columns;
pub mod laws;
mod masks;
mod occurrences;
mod rules;
mod symbols;
mod tableaux;
mod valuations;

pub use essential_columns::{essential, is_var};
pub use masks::{bit, both, full, has, with, without};
pub use occurrences::{Times, all_essential, fill_essential};
pub use symbols::Sym;
pub use tableaux::{Tableau, above, copy_symbols};
pub use valuations::holds;
