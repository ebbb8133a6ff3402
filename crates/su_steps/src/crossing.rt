//! Every public type may be moved to another thread and shared between threads.
use crate::faults::{StepFault, StepLimit};
use crate::results::{Origin, Term};
use su_base::crosses_threads;

fn types_cross_threads() {
    crosses_threads::<Origin>();
    crosses_threads::<Term>();
    crosses_threads::<StepFault>();
    crosses_threads::<StepLimit>();
}
