//! Windows: the rows over given attributes that every universal relation has which meets the
//! dependencies and includes the stored rows.
//!
//! Each list of each object's view is one row, padded with variables of its own; su_chase closes these
//! rows under the dependencies. A row whose names are constants at all given attributes is in the window,
//! and there are no others. Where two constants meet, no universal relation fits. Memory goes with the
//! members times the attributes, and with the lists of one object at a time. `window` keeps nothing;
//! who asks for several windows of one database keeps what `represent` makes. The maximal objects play
//! no part.
#![tactic(auto)]

mod columns;
mod crossing;
mod faults;
pub mod laws;
mod padding;
mod readings;
mod windows;

pub use faults::WindowFault;
pub use windows::{Representative, represent, window, window_of};
