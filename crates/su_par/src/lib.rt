//! Jobs that run side by side, with their outs in the jobs' order.
//!
//! The k-th out is one that the k-th job may give, whatever the number of workers. The jobs are cut
//! into at most as many runs of neighbours as there are workers, and each run is gone through
//! without waiting for another. Nothing is shared but the gate: there is no lock and no atomic.
//! Beside what the jobs take, memory is taken for one place and one out a job. A worker whose run is
//! short is not given jobs of another, and no speed is promised.
#![tactic(auto)]

mod crossing;
mod gates;
mod jobs;
mod side_by_side;

pub use gates::{Gate, OpenGate};
pub use jobs::Job;
pub use side_by_side::each;
