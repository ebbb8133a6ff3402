//! Tests of su_clash, of its public calls alone: a crate with tests is proved twice, so they stand beside it.
#![tactic(auto)]

#[cfg(test)]
mod tests;
