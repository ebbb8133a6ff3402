//! Every public type may be moved to another thread and shared between threads.
use crate::codes::Codes;
use crate::distinct::Distinct;
use crate::edges::{Ear, Edge};
use crate::partners::Side;
use crate::shapes::{Columns, Shape};
use crate::sheets::Sheet;
use crate::support::{Counted, Support};
use su_base::crosses_threads;

fn types_cross_threads() {
    crosses_threads::<Codes>();
    crosses_threads::<Columns>();
    crosses_threads::<Distinct>();
    crosses_threads::<Ear>();
    crosses_threads::<Edge>();
    crosses_threads::<Counted>();
    crosses_threads::<Shape>();
    crosses_threads::<Sheet>();
    crosses_threads::<Side>();
    crosses_threads::<Support>();
}
