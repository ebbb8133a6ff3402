//! One statement at a time: its reply, and what it changes.
//!
//! `read` says what a text asks for, once; a `Session` says which file that wants, and carries it out.
//! A `Session` is a database with the maximal objects of its schema, which are found once for each
//! definition and never for a statement. A refused statement, and one that finds no memory, changes
//! nothing: the room for the reply is taken before the change is made. The terms of a query are
//! minimised and executed side by side; how many at a time changes no reply.
#![tactic(auto)]

mod certifying;
mod changes;
mod commands;
mod comparing;
mod crossing;
mod definitions;
pub mod laws;
mod replies;
mod retrieving;
mod sessions;
mod showing;
mod supporting;
mod wants;
mod windowing;

pub use commands::{Command, read};
pub use replies::Reply;
pub use sessions::Session;
pub use wants::Want;
