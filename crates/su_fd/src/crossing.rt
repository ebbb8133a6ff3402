//! A dependency may be moved to another thread and shared between threads.
use crate::dependencies::Fd;
use su_base::crosses_threads;

fn dependencies_cross_threads() {
    crosses_threads::<Fd>();
}
