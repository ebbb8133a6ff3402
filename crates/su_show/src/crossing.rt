//! The public type may be moved to another thread and shared between threads.
use crate::statement_refusal::Refusal;
use su_base::crosses_threads;

fn types_cross_threads() {
    crosses_threads::<Refusal>();
}
