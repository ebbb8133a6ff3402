//! From a resolved query to its answer over a database.
//!
//! `prepare` makes the terms, minimises each, and finds which of them no other covers; the stored
//! rows play no part. `answer` joins the kept rows of each kept term over the stored rows, each row
//! through all objects that have its essential columns, and unites the answers of the terms. Terms are
//! minimised and executed side by side, and what is joined for a term is made by the thread that joins
//! it; how many at a time changes no answer. An answer of more than 1,000,000 rows is refused. The
//! answers of the terms ascend, and are merged as they come: beside the joins that run at a time, the
//! memory is that of the rows so far and of as many answers as there are workers.
//!
//! For callers: first a `Database` of su_state, the schema's maximal objects by su_maxobj, and a query that
//! su_query has resolved; then `prepare` once, and `answer`, `support` or, over a store of the caller's own,
//! `answer_over` as often as wanted, as long as the schema stays. `prepare` refuses as `terms` of su_steps
//! does: a variable that isn't covered, then limits, in order; `answer` and `answer_over` refuse for more
//! than 1,000,000 rows; each may find no memory. What `prepare` costs depends on the query alone.
#![tactic(auto)]

mod alone;
mod answering;
mod crossing;
mod executing;
mod faults;
mod found;
mod later;
pub mod laws;
mod making;
mod preparing;
mod storing;
mod supporting;
mod tasks;
mod uniting;

pub use answering::answer;
pub use executing::task_for;
pub use faults::AnswerFault;
pub use making::prepare;
pub use preparing::Prepared;
pub use storing::answer_over;
pub use supporting::support;
