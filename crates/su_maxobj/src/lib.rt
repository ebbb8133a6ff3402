//! Maximal objects: the sets of objects that a query may join without being told how.
//!
//! Decides what an object grows to when, again and again, the first object joins that shares
//! attributes with the set and hangs together with it by these alone. A schema has one list: the
//! declared sets, then each grown set that no other stands for. Finding it takes a growth for each
//! object, some milliseconds at 64 objects, 128 attributes and 256 dependencies, so it is found
//! once for a schema; the other calls take no memory. Which sets cover a query isn't decided here.
#![tactic(auto)]

mod adjoining;
mod calls;
mod growing;
pub mod laws;
mod listing;
mod ordering;
mod spreading;

pub use calls::{adjoinable, grown, maximal_objects};
