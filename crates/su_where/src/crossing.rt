//! Every public type may be moved to another thread and shared between threads.
use crate::conditions::Cond;
use crate::literals::{Literal, Operand};
use crate::operators::Op;
use su_base::{List, crosses_threads};

fn types_cross_threads() {
    crosses_threads::<Op>();
    crosses_threads::<Operand>();
    crosses_threads::<Literal>();
    crosses_threads::<Cond>();
    crosses_threads::<List<Literal>>();
}
