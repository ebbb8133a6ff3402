//! Tests of su_show, of its public calls alone: a crate with tests is proved twice, so they stand beside it.
//!
//! The worked cases of the repository compare whole replies. Here stand a few lines that none of them has.
#![tactic(auto)]

#[cfg(test)]
mod change_tests;
#[cfg(test)]
mod refusal_tests;
#[cfg(test)]
mod support_tests;
