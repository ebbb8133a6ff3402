//! Joins by decomposition: from rows of symbols with their sources to the outputs of all valuations.
//!
//! Each row's candidates are fetched once: by the constant that the fewest stored rows have, or by the
//! values that candidates fetched before give one of its variables, where these are fewer; each value is
//! searched once, for the positions of its rows. The rows with the fewest are taken first. Values are
//! numbers from then on. A comparison of order takes away candidates that the least or greatest value of
//! its other side excludes, until nothing changes or much was looked at. Semijoins along an order of ears
//! take away candidates without a partner, and ears of which nothing more is wanted; so rows that share
//! nothing with an output are only asked whether they have a valuation. Three lists that close a cycle
//! are joined at once, before any two; then two at a time are joined, those that share a variable first,
//! and of each join only the columns are kept that an output or another row or comparison still needs.
//! Comparisons are tried as soon as both their sides are there. What has no candidates left ends it all.
//! A join that is an answer by itself stops past the cap. The time is that of hashing what is joined.
#![tactic(auto)]

mod access;
mod answering;
mod candidates;
mod checks;
mod closing;
mod connecting;
mod crossing;
mod cycles;
mod executing;
mod fetching;
mod gathered;
mod joins;
mod merging;
mod narrowing;
mod order;
mod places;
mod reducing;
mod semijoins;
mod tasks;
mod threes;

pub use connecting::components;
pub use executing::execute;
pub use tasks::{Compared, ExecFault, Source, Task, TaskRow, copy_sources};
