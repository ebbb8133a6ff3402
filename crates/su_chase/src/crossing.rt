//! Every public type may be moved to another thread and shared between threads.
use crate::chasing::Chased;
use crate::freezing::Frozen;
use crate::naming::Closed;
use su_base::crosses_threads;

fn types_cross_threads() {
    crosses_threads::<Closed>();
    crosses_threads::<Chased>();
    crosses_threads::<Frozen>();
}
