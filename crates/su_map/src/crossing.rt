//! A mapping may be moved to another thread and shared between threads.
use crate::mappings::Mapping;
use su_base::crosses_threads;

fn mappings_cross_threads() {
    crosses_threads::<Mapping>();
}
