//! A prepared query may be moved to another thread and shared between threads.
use crate::preparing::Prepared;
use su_base::crosses_threads;

fn types_cross_threads() {
    crosses_threads::<Prepared>();
}
