//! Whether jobs run one after another.
use std::sync::atomic::{AtomicU64, Ordering};
use su_par::Gate;

/// A gate that notes whether a job is passed out of turn.
#[derive(Default, Drop)]
pub struct InTurn {
    next: AtomicU64,
    late: AtomicU64,
}

impl InTurn {
    /// How many jobs passed, and how many of them out of turn.
    pub fn passes(&self) -> (u64, u64) {
        (
            self.next.load(Ordering::SeqCst),
            self.late.load(Ordering::SeqCst),
        )
    }
}

impl Gate for InTurn {
    fn pass(&self, job: usize) {
        if self.next.fetch_add(1, Ordering::SeqCst) != job as u64 {
            self.late.fetch_add(1, Ordering::SeqCst);
        }
    }
}
