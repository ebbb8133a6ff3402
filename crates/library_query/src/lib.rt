//! A caller of su_answer: a query answered over whatever store holds the rows.
#![tactic(auto)]

mod asking;

pub use asking::{Refused, ask};
