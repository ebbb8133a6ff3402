//! A caller of su_tableau, su_map and su_min: a tableau built by hand, its least part, and whether two are equivalent.
#![tactic(auto)]

mod equivalent;
mod least;

pub use equivalent::are_equivalent;
pub use least::{draw, least_part};
