//! Two queries compared: whether each row of the one is a row of the other over every universal
//! relation that meets the dependencies.
//!
//! `equalities` and `agree` say which queries can be compared. `within` chases each term of the first
//! query and looks for the first term of the second that maps into it. Where none does, the chased term
//! is frozen: its rows are a universal relation that meets the dependencies, and its head a row of the
//! first query that is none of the second. The verdict is shown by `show`. A search takes no memory but
//! for one room, 33 KiB a row, that serves all pairs; it is exponential in the rows at worst. Nothing
//! is minimised here. The statement `compare` shows both directions.
#![tactic(auto)]

mod asking;
mod comparing;
mod crossing;
pub mod laws;
mod outputs;
mod settling;
mod showing;
mod shown;
mod verdicts;

pub use asking::equalities;
pub use comparing::within;
pub use outputs::agree;
pub use showing::show;
pub use verdicts::{Found, Reason, Verdict};
