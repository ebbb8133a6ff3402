//! A relation may be moved to another thread and shared between threads.
use crate::relations::Relation;
use su_base::crosses_threads;

fn relations_cross_threads() {
    crosses_threads::<Relation>();
}
