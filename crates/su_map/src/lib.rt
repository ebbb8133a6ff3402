//! Containment mappings: the first one between two tableaux, or that there is none.
//!
//! A mapping sends symbols to symbols, constants to themselves, the head to the head and each row to
//! a row. Before a search each row gets the set of its targets by constants, head symbols and its own
//! repeated symbols, and each two rows that share a variable a table of the targets that agree. The
//! search takes from the sets what no longer fits; a row without a target ends the branch. It takes
//! no memory: all is in a room of 33 KiB per row and 66 KiB beside them. `first` is in order, `exists`
//! takes the row with the fewest targets next. Minimising is in the crate above.
//!
//! For callers: first a `Tableau` of su_tableau, then a `Room` for the rows and variables of the one that is
//! mapped, once for many searches. `first` and `exists` fill their tables by themselves; `first_prepared`
//! and `exists_prepared` want `prepare` before them, for these rows or more. A search is exponential in the
//! rows at worst and has no error; `Room::new` and `certify` may find no memory.
#![tactic(auto)]

mod aims;
mod bits;
mod columns;
mod crossing;
mod domains;
pub mod laws;
mod mappings;
mod nets;
mod notes;
mod rooms;
mod search;
mod sides;
mod singles;
mod tables;
mod targets;

pub use mappings::Mapping;
pub use rooms::{Room, certify, exists, exists_prepared, first, first_prepared, prepare};
