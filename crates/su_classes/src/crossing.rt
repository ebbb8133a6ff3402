//! Every public type may be moved to another thread and shared between threads.
use crate::items::{Placed, Together};
use su_base::crosses_threads;

fn types_cross_threads() {
    crosses_threads::<Placed>();
    crosses_threads::<Together>();
}
