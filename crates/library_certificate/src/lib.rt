//! A caller of su_check: how many terms a certificate shows to be least.
#![tactic(auto)]

mod showing;

pub use showing::least_terms;
