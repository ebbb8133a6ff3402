//! Every public type may be moved to another thread and shared between threads.
use crate::minimal::Minimal;
use crate::reduced::{Cover, Reduced};
use su_base::crosses_threads;

fn types_cross_threads() {
    crosses_threads::<Minimal>();
    crosses_threads::<Cover>();
    crosses_threads::<Reduced>();
}
