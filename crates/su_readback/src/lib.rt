//! Laws of what is written and read back: what su_show writes for a schema or an explanation is read by su_explained as what was shown.
//!
//! Each law is the contract of a function that does nothing, and no code rests on this crate. The idea of the
//! proofs: a word that is closed is cut off whole, whatever has been cut before.
#![tactic(auto)]

pub mod laws;
