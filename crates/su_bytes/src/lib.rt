//! Laws of bytes: three promises that speak of every universal relation need only those of bytes.
//!
//! In definitions a text is a list of any numbers. Each law says of one definition that speaks of every
//! universal relation that those of bytes are enough; the law for two tableaux stands in su_tableau. Each is the contract of a function that does nothing, and no code rests on this crate.
//!
//! The idea of the proofs: a universal relation is copied to one of bytes, text by text, without two
//! that become one; texts of bytes stay as they are, so constants and stored values do. What the copy
//! has is read back. (Queries without order are generic: Chandra and Harel, 1980.)
#![tactic(auto)]

pub mod laws;
