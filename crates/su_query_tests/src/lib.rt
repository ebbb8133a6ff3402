//! Tests of su_query, of its public calls alone: a crate with tests is proved twice, so they stand beside it.
#![tactic(auto)]

#[cfg(test)]
mod naming_tests;
#[cfg(test)]
mod reading_tests;
