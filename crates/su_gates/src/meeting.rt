//! Whether two jobs run at the same time.
use std::sync::atomic::{AtomicU64, Ordering};
use su_par::Gate;

/// A gate at which two jobs wait for each other, for a bounded number of turns.
#[derive(Default, Drop)]
pub struct Meeting {
    first: AtomicU64,
    second: AtomicU64,
    missed: AtomicU64,
}

impl Meeting {
    /// How often each job passed, and how often one did not meet the other.
    pub fn passes(&self) -> (u64, u64, u64) {
        (
            self.first.load(Ordering::SeqCst),
            self.second.load(Ordering::SeqCst),
            self.missed.load(Ordering::SeqCst),
        )
    }
}

impl Gate for Meeting {
    fn pass(&self, job: usize) {
        let (own, other) = if job == 0 {
            (&self.first, &self.second)
        } else {
            (&self.second, &self.first)
        };
        let passes = own.fetch_add(1, Ordering::SeqCst).wrapping_add(1);
        for _ in 0..500_000_000u32 {
            if other.load(Ordering::SeqCst) >= passes {
                return;
            }
        }
        self.missed.fetch_add(1, Ordering::SeqCst);
    }
}
