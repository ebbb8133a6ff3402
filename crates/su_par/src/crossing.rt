//! The open gate may be shared between threads.
use crate::gates::OpenGate;
use su_base::crosses_threads;

fn types_cross_threads() {
    crosses_threads::<OpenGate>();
}
