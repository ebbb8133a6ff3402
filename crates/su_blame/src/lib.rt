//! Which of numbered things make a trial fail: a least set of them that does.
//!
//! A trial tells of sets of the numbers below its size whether they fail, and with more of the numbers
//! what fails goes on to fail. Sets are tried by their size, and of one size in the order of their
//! numbers, so the first that fails is a least one. Past a size that depends on how many numbers there are
//! alone, the whole is thinned number by number instead: what is left fails, and none of it can be left
//! out. Each set is tried at most once in each of the two; there are at most 4,526 trials of up to 90
//! numbers, and twice as many as there are numbers beyond.
#![tactic(auto)]

mod blaming;
mod searching;
mod thinning;
mod trials;

pub use blaming::{Blame, blame_of};
pub use trials::Trial;
