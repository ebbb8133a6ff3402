//! A fault may be moved to another thread and shared between threads.
use crate::faults::ReadFault;
use su_base::crosses_threads;

fn types_cross_threads() {
    crosses_threads::<ReadFault>();
}
