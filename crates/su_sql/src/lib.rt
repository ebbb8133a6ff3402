//! What `sysu` decides of a query, as SQL for an engine that has the rows.
//!
//! A retrieve becomes the union of one select for each kept term, over the term's kept rows alone.
//! The main theorem is the clause `means` of `selects`: over any stored rows the selects, as
//! specs/Selects.antt defines what they mean, give exactly the query's answer. Their text is a function
//! of them (specs/Queries.antt). Definitions and changes become statements too, and all else comments.
//! Nothing is executed here; that an engine means by a text what the definition says is not shown.
#![tactic(auto)]

mod cells;
mod changes;
mod columns;
mod comments;
mod conditions;
mod dialects;
mod linking;
mod making;
mod parts;
mod scripts;
mod sources;
mod statements;
mod tables;
mod words;
mod writing;

pub use cells::Cell;
pub use changes::{create, delete, delete_where, insert, print};
pub use dialects::Dialect;
pub use making::selects;
pub use scripts::script;
pub use statements::statement;
pub use tables::{CellPlace, Comparison, Fixed, Join, Operand, Select, Table};
pub use writing::query;
