//! A reply and what a text wants may be moved to another thread and shared between threads; so may what
//! a command is made of, as the crates of a definition, a statement and a fault show.
use crate::replies::Reply;
use crate::wants::Want;
use su_base::crosses_threads;

fn types_cross_threads() {
    crosses_threads::<Reply>();
    crosses_threads::<Want>();
}
