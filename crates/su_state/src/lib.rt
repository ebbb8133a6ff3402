//! A database: a schema and one set of rows per relation, with an index for each column.
//!
//! A `Database` is well kept at every moment: every row has its relation's width and kinds, every
//! dependency that lies in an object holds on that object's relation through its columns, and no
//! relation has more than 1,000,000 rows. Rows are inserted, deleted and loaded; a change is made
//! whole, or refused with its first cause and nothing is changed. The rows are noted by the left side of
//! each enforced dependency, so that an insert finds a row with its whole left side at once. Where such a
//! row has gone or moved since, it goes through the rows that have its value in one left column, that in
//! which the fewest have it, up to the first with its whole left side; an insert that breaks the
//! dependency goes through them all. A definition is added to the schema where the rows keep it.
#![tactic(auto)]

mod breaches;
mod changes;
mod checks;
mod clashes;
mod conditions;
mod copies;
mod crossing;
mod databases;
mod defining;
mod faults;
mod filling;
mod loads;
mod noting;
mod ordering;
mod pairs;
mod parts;
mod sides;

pub use databases::Database;
pub use defining::extended;
pub use faults::{DefineFault, LoadEnd, LoadFault, StateFault};
