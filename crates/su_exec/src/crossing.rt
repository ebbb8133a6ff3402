//! Every public type may be moved to another thread and shared between threads.
use crate::tasks::{Compared, ExecFault, Source, Task, TaskRow};
use su_base::crosses_threads;

fn types_cross_threads() {
    crosses_threads::<Source>();
    crosses_threads::<TaskRow>();
    crosses_threads::<Compared>();
    crosses_threads::<Task>();
    crosses_threads::<ExecFault>();
}
