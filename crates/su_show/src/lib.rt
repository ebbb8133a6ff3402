//! The texts of replies, byte for byte.
//!
//! Each text grows in one buffer; lists of names and of symbols are made beside it. A number that is
//! none of the schema's is shown as an empty name; want of memory is no text and is handed on.
#![tactic(auto)]

mod changes;
mod closures;
mod crossing;
mod explaining;
mod headers;
mod minimal_lines;
mod parts;
mod refusals;
mod refusing;
mod row_lists;
mod schemas;
mod statement_refusal;
mod support_lines;
mod symbols;
mod tableau_lines;
mod values;
mod verdicts;

pub use changes::Room;
pub use closures::closure;
pub use explaining::explanation;
pub use headers::header;
pub use refusals::ddl_fault;
pub use refusing::refusal;
pub use row_lists::rows;
pub use schemas::schema;
pub use statement_refusal::Refusal;
pub use support_lines::supports;
pub use verdicts::verdict;
