//! A caller of su_fd: closures within a relation and its keys.
#![tactic(auto)]

mod keys;

pub use keys::{dependent_on, key_of};
