//! Every public type may be moved to another thread and shared between threads.
use crate::databases::Database;
use crate::faults::{DefineFault, LoadEnd, LoadFault, StateFault};
use su_base::crosses_threads;

fn types_cross_threads() {
    crosses_threads::<Database>();
    crosses_threads::<StateFault>();
    crosses_threads::<LoadFault>();
    crosses_threads::<LoadEnd>();
    crosses_threads::<DefineFault>();
}
