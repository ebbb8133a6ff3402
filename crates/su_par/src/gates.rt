//! What is passed before a job runs.

/// A gate is passed in a job's thread before the job runs, with the job's number from 0. It says
/// nothing of its own, and is a place for tests to see which jobs run at the same time.
pub trait Gate: Sync {
    fn pass(&self, job: usize);
}

/// The gate that does nothing.
#[derive(Clone, Copy, Debug)]
pub struct OpenGate;

impl Gate for OpenGate {
    fn pass(&self, _job: usize) {}
}
