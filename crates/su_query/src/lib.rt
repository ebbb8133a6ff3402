//! The script language: one statement from its text, and its names as numbers.
//!
//! `read` takes exactly the texts of the grammar, in time linear in the text; parentheses may nest
//! 64 deep, and nothing else makes it recurse. What was read is the one statement of its text. It
//! takes memory for what it returns and for the text's symbols. `resolve` and `resolve_columns` look
//! each name up once; a query has at most 640 places, which are looked through one by one. No name is
//! looked up while reading, and no stored row is read or changed.
#![tactic(auto)]

mod columns;
mod conditions;
mod conds;
mod crossing;
mod faults;
mod forms;
mod kinds;
mod limits;
mod lists;
mod lookups;
mod mentions;
mod numbering;
mod places;
mod pushing;
mod reading;
mod refs;
mod resolving;
mod scopes;
mod sets;
mod showing;
mod statements;

pub use columns::resolve_columns;
pub use conditions::{Comparison, NamedCond};
pub use faults::{QueryFault, QueryLimit};
pub use places::Place;
pub use reading::{read, statement_of};
pub use refs::{NamedOperand, Ref};
pub use resolving::{Resolved, resolve};
pub use sets::{mentioned, resolve_attributes};
pub use showing::{push_row, show, show_query};
pub use statements::{Query, Statement};
