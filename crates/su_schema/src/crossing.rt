//! Every public type may be moved to another thread and shared between threads.
use crate::definitions::{Definition, Pair};
use crate::faults::{SchemaFault, SchemaLimit};
use crate::schemas::Schema;
use su_base::crosses_threads;

fn types_cross_threads() {
    crosses_threads::<Schema>();
    crosses_threads::<Definition>();
    crosses_threads::<Pair>();
    crosses_threads::<SchemaFault>();
    crosses_threads::<SchemaLimit>();
}
