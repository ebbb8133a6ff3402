//! Every public type may be moved to another thread and shared between threads.
use crate::conditions::{Comparison, NamedCond};
use crate::faults::{QueryFault, QueryLimit};
use crate::places::Place;
use crate::refs::{NamedOperand, Ref};
use crate::resolving::Resolved;
use crate::statements::{Query, Statement};
use su_base::crosses_threads;

fn types_cross_threads() {
    crosses_threads::<Ref>();
    crosses_threads::<NamedOperand>();
    crosses_threads::<Comparison>();
    crosses_threads::<NamedCond>();
    crosses_threads::<Query>();
    crosses_threads::<Statement>();
    crosses_threads::<Place>();
    crosses_threads::<Resolved>();
    crosses_threads::<QueryFault>();
    crosses_threads::<QueryLimit>();
}
