//! Every public type may be moved to another thread and shared between threads.
use crate::scopes::Scope;
use su_base::crosses_threads;

fn types_cross_threads() {
    crosses_threads::<Scope>();
}
