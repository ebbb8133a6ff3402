//! The bank of the generator, with so many rows in each relation: a script that makes it, and what four
//! queries find in it.
#![tactic(auto)]

mod banks;
mod counts;
mod lines;
mod scripts;

pub use banks::bank_text;
pub use counts::row_count;
pub use scripts::bank_script;
