//! What a schema's definitions say about it without a look at rows.
//!
//! Each call finds one kind of finding and gives its numbers or sets, each once: what no object uses,
//! dependencies that lie in no object or follow from others, keys and broken normal forms, cores of
//! cyclic maximal objects, and pairs of attributes that no maximal object covers. Objects are read once,
//! as sets of attributes. The time is that of some closures for each number that is tried; only keys may
//! take 4,096 closures for an object. Nothing here judges what a finding is worth or writes it.
#![tactic(auto)]

mod alone;
mod choosing;
mod covering;
mod cycles;
mod doubling;
mod lying;
mod needing;
mod normal;
mod outline;
mod redundancy;
mod taking;
mod thinning;
mod unused;

pub use alone::lone_objects;
pub use choosing::keys;
pub use covering::{covers_of, uncovered_with};
pub use cycles::{attributes_of, core_of, meeting_in};
pub use lying::{kept_nowhere, lying_in};
pub use normal::breaking;
pub use outline::object_sets;
pub use redundancy::{droppable, redundant, spare_attributes};
pub use taking::ear_order;
pub use thinning::least_breakers;
pub use unused::{unpaired_columns, unread_relations, unused_attributes};
