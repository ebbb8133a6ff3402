//! Every public type may be moved to another thread and shared between threads.
use crate::symbols::Sym;
use crate::tableaux::Tableau;
use su_base::crosses_threads;

fn types_cross_threads() {
    crosses_threads::<Sym>();
    crosses_threads::<Tableau>();
}
