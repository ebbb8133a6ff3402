//! Every public type may be moved to another thread and shared between threads.
use crate::clashing::Clash;
use crate::faults::ClashFault;
use crate::members::Member;
use crate::steps::Step;
use su_base::crosses_threads;

fn types_cross_threads() {
    crosses_threads::<Clash>();
    crosses_threads::<ClashFault>();
    crosses_threads::<Member>();
    crosses_threads::<Step>();
}
