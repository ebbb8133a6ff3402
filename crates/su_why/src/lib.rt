//! Why a query has no rows, or hasn't a row.
//!
//! For each kept term of a prepared query the kept rows and comparisons are joined in parts, by su_exec,
//! and nothing is asked for but whether some valuation meets the part: su_blame finds a least part that
//! none meets. The time is that of at most some thousand such joins a term, the most where a term has
//! twelve rows and comparisons.
#![tactic(auto)]

mod blaming;
mod giving;
mod heads;
mod parts;
mod refusals;
mod trying;
mod whys;

pub use giving::given;
pub use refusals::{WhyNot, why_not};
pub use whys::why_empty;
