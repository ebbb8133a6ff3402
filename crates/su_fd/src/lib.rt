//! Functional dependencies and what follows from them.
//!
//! Decides which attributes a set of attributes determines: the closure is the least closed set
//! that includes the start, whatever the order of the dependencies. Closures take no memory and
//! pass over the dependencies until a pass adds nothing, at most once more than sets were added;
//! a dependency is two numbers of 128 bits. It doesn't look for keys, covers or minimal lists.
//!
//! For callers: sets are `AttrSet` of su_base, dependencies `Fd`, in any list; `closure`, `determines` and
//! `derivation` may be called in any order, and nothing is kept between calls. `derivation` alone takes
//! memory, and want of it is its only error. A closure costs a few operations on machine words for each
//! dependency and pass.
#![tactic(auto)]

mod closures;
mod crossing;
mod dependencies;
mod derivations;
pub mod laws;

pub use closures::{closure, determines};
pub use dependencies::Fd;
pub use derivations::derivation;
