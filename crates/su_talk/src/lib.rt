//! Statements answered as they come.
//!
//! `talk` asks for input, carries out each statement that has ended, keeps what it changed and hands its
//! reply over, before it asks again. What is read at once is a group: it is kept in one commit, and only
//! then replied to. `Company` is whom it talks with: where input comes from, where replies go, the files
//! of loads, and what keeps the database.
#![tactic(auto)]

mod answering;
mod closes;
mod company;
mod framing;
mod groups;
pub mod laws;
mod manners;
mod talking;
mod top;

pub use closes::Close;
pub use company::Company;
pub use manners::Manner;
pub use top::talk;
