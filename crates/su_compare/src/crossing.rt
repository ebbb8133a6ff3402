//! Every public type may be moved to another thread and shared between threads.
use crate::verdicts::{Found, Reason, Verdict};
use su_base::crosses_threads;

fn types_cross_threads() {
    crosses_threads::<Found>();
    crosses_threads::<Reason>();
    crosses_threads::<Verdict>();
}
