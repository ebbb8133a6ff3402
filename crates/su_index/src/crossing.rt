//! A table may be moved to another thread and shared between threads.
use crate::tables::Table;
use su_base::crosses_threads;

fn tables_cross_threads() {
    crosses_threads::<Table>();
}
